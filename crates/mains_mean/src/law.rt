// The laws, with what they speak of in `specs/`.
ghost use Rattle.mains_mean.specs.Mains.{CodeIsMain, MainsDo, MainsMean};

use library_sound::law::library_is_safe;

/// Whatever checked main function means the tree of a source, by whichever compiler it was made: in the world of the libraries, on all lines of
/// input and every budget, the machine that runs it prints the bytes that the tree prints by the letter of the manual, and both end alike. What
/// the machine does the tree means, and what the tree means the machine does. Lines and names are in the code or they are not.
pub fn mains_do_as_they_mean()
    ensures does { MainsDo }
    ensures means { MainsMean }
{
    library_is_safe();
}

/// The code that is defined for a source is such a main function.
pub fn code_of_sources_is_a_main()
    ensures { CodeIsMain }
{
    library_is_safe();
}
