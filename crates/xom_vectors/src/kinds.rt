//! From a vector's kind to what computes it.

use crate::args::Args;
use crate::fault::{Answer, Fault};
use crate::{cipher, effects, images, instructions, mac, numbers, sealing, tokens};

/// What a vector of this kind and with these words gives.
pub fn computed(kind: &str, args: &Args) -> Answer {
    if let Some(answer) = cipher::answer(kind, args) {
        return answer;
    }
    if let Some(answer) = mac::answer(kind, args) {
        return answer;
    }
    if let Some(answer) = sealing::answer(kind, args) {
        return answer;
    }
    if let Some(answer) = images::answer(kind, args) {
        return answer;
    }
    if let Some(answer) = instructions::answer(kind, args) {
        return answer;
    }
    if let Some(answer) = effects::answer(kind, args) {
        return answer;
    }
    if let Some(answer) = tokens::answer(kind, args) {
        return answer;
    }
    numbers::answer(kind, args).unwrap_or(Err(Fault::Unreadable))
}
