//! Sources that are cut into tokens, read, assembled and listed.

use crate::inputs::{PRIVATE, repeated};
use asm_syntax::read_source;
use asm_tokens::{Token, TokenKind, tokens, unquoted};
use mips_asm::{AsmFault, assemble};
use mips_text::listing;
use std::test::Fail;
use xom_base::List;

// Each line has 1,048,576 bytes or a little more.
#[test]
fn long_lines_have_tokens(rt: HostRuntime) -> Result<(), Fail> {
    let line = repeated(rt.alloc(), b"$8, ", 262_144)?;
    let mut tokens = tokens(rt.alloc(), &line)?;
    assert!(rt; tokens.len() == 524_288);
    assert!(rt; matches!(tokens.get(524_287), Some(Token { end: 1_048_575, .. })));
    tokens.push(Token {
        kind: TokenKind::Comma,
        start: 0,
        end: 1,
    })?;
    let mut text = repeated(rt.alloc(), b"\"", 1)?;
    text.extend_from_slice(&repeated(rt.alloc(), b"\\n", 524_288)?)?;
    text.push(b'"')?;
    let bytes = unquoted(rt.alloc(), &text)?.ok_or("no quoted text")?;
    assert!(rt; bytes.as_slice() == repeated(rt.alloc(), b"\n", 524_288)?.as_slice());
    Ok(())
}

#[test]
fn the_largest_source_is_read_assembled_and_listed(rt: HostRuntime) -> Result<(), Fail> {
    let source = repeated(rt.alloc(), b"nop\n", 262_144)?;
    let mut parts = read_source(rt.alloc(), &source)?.into_vec();
    assert!(rt; parts.len() == 262_144);
    let mut lasts = List::new(rt.alloc());
    lasts.push(parts.pop().ok_or("no part")?)?;
    assert!(rt; lasts.as_slice().len() == 1 && lasts.as_slice()[0].line == 262_144);
    let image = assemble(rt.alloc(), &source)?;
    assert!(rt; image.entry == 0 && image.bytes.len() == PRIVATE);
    let text = listing(rt.alloc(), &image)?;
    let first = b"00000000 00000000 sll $0, $0, 0\n";
    assert!(rt; text.len() == 32 * 262_144);
    assert!(rt; text.as_slice().starts_with(first));
    Ok(())
}

// The last word of private memory is the entry, which is as far behind as one can be.
#[test]
fn the_last_entry_is_assembled(rt: HostRuntime) -> Result<(), Fail> {
    let image = assemble(rt.alloc(), b".org 0xffffc\nlast: xexit\n.entry last\n")?;
    assert!(rt; image.entry == 0xffffc && image.bytes.len() == PRIVATE);
    assert!(rt; matches!(image.bytes.get(0xfffff), Some(3)));
    Ok(())
}

#[test]
fn faults_of_sources_are_told(rt: HostRuntime) -> Result<(), Fail> {
    for (fault, told) in [
        (AsmFault::Syntax(1), "line 1: Syntax"),
        (AsmFault::Duplicate(2), "line 2: Duplicate"),
        (AsmFault::TooLong(3), "line 3: TooLong"),
        (AsmFault::Overlap(4), "line 4: Overlap"),
        (AsmFault::UnknownName(5), "line 5: UnknownName"),
        (AsmFault::Range(6), "line 6: Range"),
        (AsmFault::NoMemory, "out of memory"),
    ] {
        let text = format!(in rt.alloc(); "{fault}")?;
        assert!(rt; text.as_str() == told);
    }
    Ok(())
}
