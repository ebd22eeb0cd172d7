//! HMAC with SHA-256, its digests, and the comparison of tags.
//!
//! - `hmac KEY TEXT = TAG`: a key of more than 64 bytes is given by its digest, as FIPS 198-1, section 4,
//!   says.
//! - `sha256 TEXT = DIGEST`
//! - `matches TAG TAG = yes` or `no`

use crate::args::Args;
use crate::fault::Answer;
use crate::line::{digits, yes_or_no};
use keyed_mac::{BLOCK, digest, matches, tag};

/// The result, or none where the kind isn't of this module.
pub fn answer(kind: &str, args: &Args) -> Option<Answer> {
    match (kind, args.len()) {
        ("hmac", 2) => Some(hmac(args)),
        ("sha256", 1) => Some(sha256(args)),
        ("matches", 2) => Some(same_tag(args)),
        _ => None,
    }
}

fn hmac(args: &Args) -> Answer {
    let (key, text) = (args.bytes(0)?, args.bytes(1)?);
    let tag = if key.len() <= BLOCK {
        tag(key, text)
    } else {
        tag(&digest(key), text)
    };
    digits(args.alloc(), &tag)
}

fn sha256(args: &Args) -> Answer {
    digits(args.alloc(), &digest(args.bytes(0)?))
}

fn same_tag(args: &Args) -> Answer {
    let holds = matches(&args.array(0)?, &args.array(1)?);
    yes_or_no(args.alloc(), holds)
}
