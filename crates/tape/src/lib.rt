// Replies written one behind the other, each a kind byte, a length byte and the bytes. It stands below `session`, so that whatever is
// held against a session reads the same replies and names nothing of it.
#![tactic(auto)]

mod turns;

ghost use Rattle.std.specs.Prelude.{◌≡◌, length};
ghost use Rattle.tape.specs.Replies.{found_at, whole_replies};

// A reply that stands in the input: its kind, and where its bytes start and end, places as `found_at` says them. The kind is any byte: an
// input may say one that is none, and the session refuses it (21).
#[derive(Clone, Copy)]
pub struct Reply {
    pub kind: u8,
    pub start: usize,
    pub end: usize,
}

// Of a reply only a part stands there.
#[derive(Clone, Copy)]
pub struct CutShort;

// The replies of an input from a place on, one for each turn, in the bytes that it was lent.
#[derive(Drop)]
pub struct Replies<'a> {
    pub input: &'a [u8],
    pub at: usize,
}

// What stands at a place of the input: a reply, nothing more, or a part of one.
#[tactic(auto, unfolding(crate::specs::Replies::found_at))]
pub fn reply_at(input: &[u8], at: usize) -> Result<Option<Reply>, CutShort>
    ensures { result ≡ found_at input.now at }
{
    let Some(&kind) = input.get(at) else {
        return Ok(None);
    };
    let Some(&count) = input.get(at + 1) else {
        return Err(CutShort);
    };
    let start = at + 2;
    let end = start + count as usize;
    if input.len() < end {
        return Err(CutShort);
    }
    Ok(Some(Reply { kind, start, end }))
}

// Whether the replies from a place on are whole. No input has more replies than bytes. With `all` the proof did
// not close.
#[tactic(auto, using(crate::proofs::Whole::whole_turn), unfolding(crate::specs::Replies::whole_by))]
pub fn replies_whole(input: &[u8], from: usize) -> bool
    ensures { result ≡ whole_replies (length input.now) input.now from }
{
    for reply in (Replies { input, at: from }) {
        if reply.is_err() {
            return false;
        }
    }
    true
}
