// The number that a text begins with.
ghost use Rattle.std.specs.Prelude.{◌≡◌, ◌≤◌, ◌<◌, ◌^◌, length, take, drop, IfSome, Some};
ghost use Rattle.std.specs.List.{prefix_len, AllPass};
ghost use Rattle.library_rows.specs.Codepoints.{decode, decoded_by, is_accepted, is_continuation, joined_bits, lead_of};
ghost use Rattle.utf8_core.specs.Told.{told_decoded, told_lead};

/// A number that a sequence of bytes stands for.
#[derive(Clone, Copy, Debug, PartialEq, Eq)]
pub struct Decoded {
    /// The number, below 2^31.
    pub code: u64,
    /// How many bytes follow the first one.
    pub more: usize,
}

/// What a first byte says.
#[derive(Clone, Copy)]
pub(crate) struct Lead {
    /// Its own part of the number.
    pub bits: u64,
    /// How many bytes follow.
    pub more: usize,
    /// The least number of such a sequence.
    pub least: u64,
}

/// The number that a text begins with. Without `lax` it is a scalar value of Unicode.
pub fn decode(text: &[u8], lax: bool) -> Option<Decoded>
    ensures value { told_decoded result ≡ decode lax text.now }
    ensures inside { IfSome result (λ d. d.more < length text.now) }
{
    let (first, rest) = text.split_first()?;
    let lead = lead_of(*first)?;
    decoded_by(lead, rest, lax)
}

fn leads(bits: u64, more: usize, least: u64) -> Option<Lead>
    ensures { result ≡ Some (record { bits = bits; more = more; least = least }) }
{
    Some(Lead { bits, more, least })
}

fn lead_of(byte: u8) -> Option<Lead>
    ensures lead { told_lead result ≡ lead_of byte }
    ensures bits { IfSome result (λ l. l.bits < 128) }
    ensures more { IfSome result (λ l. l.more ≤ 5) }
{
    let byte = u64::from(byte);
    if byte < 128 {
        leads(byte, 0, 0)
    } else if byte < 192 {
        None
    } else if byte < 224 {
        leads(byte - 192, 1, 128)
    } else if byte < 240 {
        leads(byte - 224, 2, 2048)
    } else if byte < 248 {
        leads(byte - 240, 3, 65536)
    } else if byte < 252 {
        leads(byte - 248, 4, 2_097_152)
    } else if byte < 254 {
        leads(byte - 252, 5, 67_108_864)
    } else {
        None
    }
}

fn decoded_by(lead: Lead, text: &[u8], lax: bool) -> Option<Decoded>
    requires bits { lead.bits < 128 }
    requires more { lead.more ≤ 5 }
    ensures value { told_decoded result ≡ decoded_by lax (record { bits = lead.bits; more = lead.more; least = lead.least }) text.now }
    ensures inside { IfSome result (λ d. d.more ≤ length text.now) }
{
    if lead.more > continued(text) {
        return None;
    }
    let code = joined_bits(lead.bits, &text[..lead.more]);
    if lead.least <= code && is_accepted(lax, code) {
        Some(Decoded {
            code,
            more: lead.more,
        })
    } else {
        None
    }
}

pub(crate) fn is_continuation(byte: u8) -> bool
    ensures { result ≡ is_continuation byte }
{
    128 <= byte && byte < 192
}

/// How many bytes a text begins with that continue a sequence.
pub fn continued(text: &[u8]) -> usize
    ensures value { result ≡ prefix_len is_continuation text.now }
    ensures within { result ≤ length text.now }
{
    text.iter()
        .take_while(|byte| is_continuation(**byte))
        .count()
}

fn joined_bits(bits: u64, bytes: &[u8]) -> u64
    requires bits { bits < 128 }
    requires few { length bytes.now ≤ 5 }
    requires bytes { AllPass is_continuation bytes.now }
    ensures { result ≡ joined_bits bits bytes.now }
{
    let mut code = bits;
    for byte in bytes {
        code = code * 64 + u64::from(*byte - 128);
    }
    code
}

fn is_accepted(lax: bool, code: u64) -> bool
    ensures { result ≡ is_accepted lax code }
{
    lax || (code <= 1_114_111 && !(55_296 <= code && code <= 57_343))
}

/// The bytes of a text from a place on.
pub fn behind(text: &[u8], at: usize) -> &[u8]
    requires { at ≤ length text.now }
    ensures { result.now ≡ drop at text.now }
{
    let (_, rest) = text.split_at(at);
    rest
}
