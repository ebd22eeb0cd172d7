ghost use Rattle.std.specs.Prelude.{◌≡◌, Some, IfSome};
ghost use Rattle.mips_forms.specs.Builds.{kinds_of};

use crate::OperandKind;
use crate::OperandKind::{Branch, Jump, Offset, Register, Shift, Signed, Unsigned};
use crate::building::{
    access, compare, jump, register, shift, signed, test, three_registers, two_registers, unsigned,
    upper,
};

/// The kinds of operands of a mnemonic, where they are found in the tables in which most mnemonics
/// with its first letter stand. None says nothing.
pub(crate) fn kinds_by_letter(name: &[u8]) -> Option<&'static [OperandKind]>
    ensures { IfSome result (λ shape. kinds_of name.now ≡ Some shape.now) }
{
    match name {
        [b'a' | b'n' | b'o', ..] => kinds_of_sums(name),
        [b'b', ..] => kinds_of_branches(name),
        [b'd' | b'm' | b'x', ..] => kinds_of_moves(name),
        [b'j', ..] => kinds_of_jumps(name),
        [b'l', ..] => kinds_of_loads(name),
        [b's', ..] => kinds_of_stores(name),
        _ => None,
    }
}

/// Sums: of three registers, or of two and an immediate.
fn kinds_of_sums(name: &[u8]) -> Option<&'static [OperandKind]>
    ensures { IfSome result (λ shape. kinds_of name.now ≡ Some shape.now) }
{
    if three_registers(name, 0, 0, 0).is_some() {
        Some(&[Register, Register, Register])
    } else if signed(name, 0, 0, 0).is_some() {
        Some(&[Register, Register, Signed])
    } else if unsigned(name, 0, 0, 0).is_some() {
        Some(&[Register, Register, Unsigned])
    } else {
        None
    }
}

/// Branches: over two registers, or over one.
fn kinds_of_branches(name: &[u8]) -> Option<&'static [OperandKind]>
    ensures { IfSome result (λ shape. kinds_of name.now ≡ Some shape.now) }
{
    if compare(name, 0, 0, 0).is_some() {
        Some(&[Register, Register, Branch])
    } else if test(name, 0, 0).is_some() {
        Some(&[Register, Branch])
    } else {
        None
    }
}

/// Products, quotients and moves: of one register or of two.
fn kinds_of_moves(name: &[u8]) -> Option<&'static [OperandKind]>
    ensures { IfSome result (λ shape. kinds_of name.now ≡ Some shape.now) }
{
    if two_registers(name, 0, 0).is_some() {
        Some(&[Register, Register])
    } else if register(name, 0).is_some() {
        Some(&[Register])
    } else {
        None
    }
}

/// Jumps: to a target, or to what a register holds.
fn kinds_of_jumps(name: &[u8]) -> Option<&'static [OperandKind]>
    ensures { IfSome result (λ shape. kinds_of name.now ≡ Some shape.now) }
{
    if jump(name, 0).is_some() {
        Some(&[Jump])
    } else {
        kinds_of_moves(name)
    }
}

/// Loads: from memory, or of an immediate.
fn kinds_of_loads(name: &[u8]) -> Option<&'static [OperandKind]>
    ensures { IfSome result (λ shape. kinds_of name.now ≡ Some shape.now) }
{
    if access(name, 0, 0, 0).is_some() {
        Some(&[Register, Offset])
    } else if upper(name, 0, 0).is_some() {
        Some(&[Register, Unsigned])
    } else {
        None
    }
}

/// Stores, shifts, and the sums with the letter `s`.
fn kinds_of_stores(name: &[u8]) -> Option<&'static [OperandKind]>
    ensures { IfSome result (λ shape. kinds_of name.now ≡ Some shape.now) }
{
    if access(name, 0, 0, 0).is_some() {
        Some(&[Register, Offset])
    } else if shift(name, 0, 0, 0).is_some() {
        Some(&[Register, Register, Shift])
    } else {
        kinds_of_sums(name)
    }
}
