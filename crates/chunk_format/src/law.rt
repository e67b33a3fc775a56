// A law of the chunks that are written.
ghost use Rattle.chunk_format.specs.Laws.{NoneGoesOn};

/// No chunk that is written is the front of another one, so each is read again whatever follows it.
pub fn no_chunk_goes_on()
    ensures { NoneGoesOn }
{}
