// Prints what the file on standard input holds (document 01, "The printing program"). What it writes is made by `shown::show`.
#![tactic(auto)]

#[tactic(auto, using(text::proofs::Laws::puts_inside, text::proofs::Laws::puts_taken))]
fn main(rt: HostRuntime) {
    // One byte more than a file may have, so that a longer one is seen to be longer.
    let mut file = [0u8; 65537];
    let n = streams::fill(&mut rt.reader(), &mut file);
    let mut out = [0u8; 160];
    let written = shown::show(&file[..n], &mut out);
    let _ = rt.write_all(&out[..written]);
}
