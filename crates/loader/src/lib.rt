// The entries for the station's C loader, declared in include/tehilgam.h. C passes a slice as a pointer and then a length.
#![tactic(auto)]

ghost use Rattle.std.specs.Prelude.{◌≡◌};
ghost use Rattle.pec.specs.Pec.{pec};
ghost use Rattle.image.specs.Check.{check_of};
ghost use Rattle.summary.specs.Answers.{answer_told};

// The PEC of some bytes.
#[unsafe(no_mangle)]
pub extern "C" fn tehilgam_pec(bytes: &[u8]) -> u8
    ensures { result ≡ pec bytes.now }
{
    pec::of(bytes)
}

// The refusal number of a file, 0 if accepted.
#[unsafe(no_mangle)]
pub extern "C" fn tehilgam_refusal(text: &[u8]) -> u8
    ensures { result ≡ (answer_told (check_of text.now).answer).number }
{
    image::check(text).told().number
}
