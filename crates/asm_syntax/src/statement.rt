ghost use Rattle.std.specs.Prelude.{◌≡◌, [], ◌∷◌, IfOk};
ghost use Rattle.asm_source.specs.declared.content.Content.TheVariants as content;
ghost use Rattle.asm_syntax.specs.Forms.{FormAnswers, map_some};
ghost use Rattle.asm_syntax.specs.Lines.{align_statement, ascii_statement, b_statement, byte_statement, coded_statement, entry_statement, instruction_statement, jalr_statement, la_statement, label_of_argument, li_statement, may_be, may_be_all, mnemonic_statement, move_statement, nop_statement, number_of_argument, org_statement, register_of_argument, size_in, space_statement, statement_of, value_of_argument, word_statement};

use crate::arguments::ZERO;
use crate::copies::{copy_bytes, copy_value, room};
use asm_source::{Argument, Content, SourceName, Value};
use asm_tokens::Integer;
use mips_forms::{OperandKind, kinds, same_text};
use std::alloc::Global;
use text_lines::LineFault;
use xom_base::{List, NoMemory};

/// The statement with this name and these operands. Bad where there is none of that form.
#[tactic(auto, unfolding(crate::specs::Lines::statement_of))]
pub fn statement(
    alloc: Global,
    name: &[u8],
    arguments: List<Argument>,
) -> Result<Content, LineFault>
    ensures { FormAnswers (statement_of name.now arguments) result }
{
    if same_text(name, b".word") {
        word(alloc, arguments.as_slice())
    } else if same_text(name, b".byte") {
        byte(alloc, arguments.as_slice())
    } else if same_text(name, b".ascii") {
        ascii(alloc, arguments.as_slice())
    } else if same_text(name, b".space") {
        space(arguments.as_slice()).ok_or(LineFault::Bad)
    } else if same_text(name, b".align") {
        align(arguments.as_slice()).ok_or(LineFault::Bad)
    } else if same_text(name, b".org") {
        org(arguments.as_slice()).ok_or(LineFault::Bad)
    } else if same_text(name, b".entry") {
        entry(alloc, arguments.as_slice())
    } else {
        mnemonic(alloc, name, arguments)
    }
}

/// A statement that makes instructions.
#[tactic(auto, unfolding(crate::specs::Lines::mnemonic_statement))]
fn mnemonic(alloc: Global, name: &[u8], arguments: List<Argument>) -> Result<Content, LineFault>
    ensures { FormAnswers (mnemonic_statement name.now arguments) result }
{
    if same_text(name, b"li") {
        load_number(arguments.as_slice()).ok_or(LineFault::Bad)
    } else if same_text(name, b"la") {
        load_address(alloc, arguments.as_slice())
    } else if same_text(name, b"move") {
        move_register(alloc, arguments.as_slice())
    } else if same_text(name, b"nop") {
        nop(alloc, arguments.as_slice())
    } else if same_text(name, b"b") {
        branch(alloc, arguments.as_slice())
    } else if same_text(name, b"jalr") {
        link(alloc, arguments)
    } else if same_text(name, b"syscall") || same_text(name, b"break") {
        coded(alloc, name, arguments)
    } else {
        instruction(alloc, name, arguments)
    }
}

/// `.word v, v`
#[tactic(auto, unfolding(crate::specs::Lines::word_statement))]
fn word(alloc: Global, arguments: &[Argument]) -> Result<Content, LineFault>
    ensures { FormAnswers (word_statement arguments.now) result }
{
    if arguments.is_empty() {
        return Err(LineFault::Bad);
    }
    Ok(Content::Words(values(alloc, arguments)?))
}

#[tactic(auto, using(crate::proofs::FormLaws::map_some_more, crate::proofs::FormLaws::map_some_stops))]
fn values(alloc: Global, arguments: &[Argument]) -> Result<List<Value>, LineFault>
    ensures { FormAnswers (map_some value_of_argument arguments.now) result }
{
    let mut values = List::new(alloc);
    for argument in arguments {
        let value = value_in(alloc, argument)?;
        values.push(value)?;
    }
    Ok(values)
}

/// `.byte n, n`
#[tactic(auto, unfolding(crate::specs::Lines::byte_statement))]
fn byte(alloc: Global, arguments: &[Argument]) -> Result<Content, LineFault>
    ensures { FormAnswers (byte_statement arguments.now) result }
{
    if arguments.is_empty() {
        return Err(LineFault::Bad);
    }
    Ok(Content::Bytes(numbers(alloc, arguments)?))
}

#[tactic(auto, using(crate::proofs::FormLaws::map_some_more, crate::proofs::FormLaws::map_some_stops))]
fn numbers(alloc: Global, arguments: &[Argument]) -> Result<List<Integer>, LineFault>
    ensures { FormAnswers (map_some number_of_argument arguments.now) result }
{
    let mut numbers = List::new(alloc);
    for argument in arguments {
        let number = number_in(argument).ok_or(LineFault::Bad)?;
        numbers.push(number)?;
    }
    Ok(numbers)
}

/// `.ascii "text"`
#[tactic(auto, unfolding(crate::specs::Lines::ascii_statement))]
fn ascii(alloc: Global, arguments: &[Argument]) -> Result<Content, LineFault>
    ensures { FormAnswers (ascii_statement arguments.now) result }
{
    match arguments {
        [Argument::Text(bytes)] => Ok(Content::Ascii(copy_bytes(alloc, bytes.as_slice())?)),
        _ => Err(LineFault::Bad),
    }
}

/// `.space n`
#[tactic(auto, unfolding(crate::specs::Lines::space_statement))]
fn space(arguments: &[Argument]) -> Option<Content>
    ensures { result ≡ space_statement arguments.now }
{
    match arguments {
        [size] => Some(Content::Space(size_in(size)?)),
        _ => None,
    }
}

/// `.align n`
#[tactic(auto, unfolding(crate::specs::Lines::align_statement))]
fn align(arguments: &[Argument]) -> Option<Content>
    ensures { result ≡ align_statement arguments.now }
{
    match arguments {
        [power] => Some(Content::Align(size_in(power)?)),
        _ => None,
    }
}

/// `.org n`
#[tactic(auto, unfolding(crate::specs::Lines::org_statement))]
fn org(arguments: &[Argument]) -> Option<Content>
    ensures { result ≡ org_statement arguments.now }
{
    match arguments {
        [place] => Some(Content::Org(size_in(place)?)),
        _ => None,
    }
}

/// `.entry v`
#[tactic(auto, unfolding(crate::specs::Lines::entry_statement))]
fn entry(alloc: Global, arguments: &[Argument]) -> Result<Content, LineFault>
    ensures { FormAnswers (entry_statement arguments.now) result }
{
    match arguments {
        [value] => Ok(Content::Entry(value_in(alloc, value)?)),
        _ => Err(LineFault::Bad),
    }
}

/// `li r, n`
#[tactic(auto, unfolding(crate::specs::Lines::li_statement))]
fn load_number(arguments: &[Argument]) -> Option<Content>
    ensures { result ≡ li_statement arguments.now }
{
    match arguments {
        [register, number] => {
            let register = register_in(register)?;
            Some(Content::LoadNumber(register, number_in(number)?))
        }
        _ => None,
    }
}

/// `la r, label`
#[tactic(auto, unfolding(crate::specs::Lines::la_statement))]
fn load_address(alloc: Global, arguments: &[Argument]) -> Result<Content, LineFault>
    ensures { FormAnswers (la_statement arguments.now) result }
{
    match arguments {
        [register, label] => {
            let register = register_in(register).ok_or(LineFault::Bad)?;
            Ok(Content::LoadAddress(register, label_in(alloc, label)?))
        }
        _ => Err(LineFault::Bad),
    }
}

/// `move rd, rs`
#[tactic(auto, unfolding(crate::specs::Lines::move_statement))]
fn move_register(alloc: Global, arguments: &[Argument]) -> Result<Content, LineFault>
    ensures { FormAnswers (move_statement arguments.now) result }
{
    match arguments {
        [rd, rs] => {
            let rd = register_in(rd).ok_or(LineFault::Bad)?;
            let rs = register_in(rs).ok_or(LineFault::Bad)?;
            let zero = Argument::Register(0);
            Ok(three(
                alloc,
                b"addu",
                Argument::Register(rd),
                Argument::Register(rs),
                zero,
            )?)
        }
        _ => Err(LineFault::Bad),
    }
}

/// `nop`
#[tactic(auto, unfolding(crate::specs::Lines::nop_statement))]
fn nop(alloc: Global, arguments: &[Argument]) -> Result<Content, LineFault>
    ensures { FormAnswers (nop_statement arguments.now) result }
{
    if !arguments.is_empty() {
        return Err(LineFault::Bad);
    }
    let zero = Argument::Value(Value::Number(ZERO));
    Ok(three(
        alloc,
        b"sll",
        Argument::Register(0),
        Argument::Register(0),
        zero,
    )?)
}

/// `b target`
#[tactic(auto, unfolding(crate::specs::Lines::b_statement))]
fn branch(alloc: Global, arguments: &[Argument]) -> Result<Content, LineFault>
    ensures { FormAnswers (b_statement arguments.now) result }
{
    match arguments {
        [target] => {
            let target = Argument::Value(value_in(alloc, target)?);
            Ok(three(
                alloc,
                b"beq",
                Argument::Register(0),
                Argument::Register(0),
                target,
            )?)
        }
        _ => Err(LineFault::Bad),
    }
}

/// `jalr rd, rs` or `jalr rs`
#[tactic(auto, unfolding(crate::specs::Lines::jalr_statement))]
fn link(alloc: Global, arguments: List<Argument>) -> Result<Content, LineFault>
    ensures { FormAnswers (jalr_statement arguments) result }
{
    match arguments.as_slice() {
        [Argument::Register(rs)] => {
            let mut full = List::new(alloc);
            full.push(Argument::Register(31))?;
            full.push(Argument::Register(*rs))?;
            Ok(Content::Instruction(SourceName::from_slice(alloc, b"jalr")?, full))
        }
        _ => instruction(alloc, b"jalr", arguments),
    }
}

/// `syscall` and `break`, with a code or without
#[tactic(auto, unfolding(crate::specs::Lines::coded_statement))]
fn coded(alloc: Global, name: &[u8], arguments: List<Argument>) -> Result<Content, LineFault>
    ensures { FormAnswers (coded_statement name.now arguments) result }
{
    if arguments.as_slice().is_empty() {
        let mut full = List::new(alloc);
        full.push(Argument::Value(Value::Number(ZERO)))?;
        let name = SourceName::from_slice(alloc, name)?;
        return Ok(Content::Instruction(name, full));
    }
    instruction(alloc, name, arguments)
}

/// An instruction with all its operands.
#[tactic(auto, unfolding(crate::specs::Lines::instruction_statement))]
fn instruction(alloc: Global, name: &[u8], arguments: List<Argument>) -> Result<Content, LineFault>
    ensures { FormAnswers (instruction_statement name.now arguments) result }
{
    let shape = kinds(name).ok_or(LineFault::Bad)?;
    if !may_be_all(shape, arguments.as_slice()) {
        return Err(LineFault::Bad);
    }
    let name = SourceName::from_slice(alloc, name)?;
    Ok(Content::Instruction(name, arguments))
}

/// Whether these operands may stand where the instruction takes those of these kinds.
fn may_be_all(shape: &[OperandKind], arguments: &[Argument]) -> bool
    ensures { result ≡ may_be_all shape.now arguments.now }
{
    let [kind, shape @ ..] = shape else {
        return arguments.is_empty();
    };
    let [argument, arguments @ ..] = arguments else {
        return false;
    };
    may_be(*kind, argument) && may_be_all(shape, arguments)
}

/// Whether an operand may stand where the instruction takes one of this kind.
fn may_be(kind: OperandKind, argument: &Argument) -> bool
    ensures { result ≡ may_be kind argument.now }
{
    match kind {
        OperandKind::Register => matches!(argument, Argument::Register(_)),
        OperandKind::Shift | OperandKind::Code => {
            matches!(argument, Argument::Value(Value::Number(_)))
        }
        OperandKind::Signed | OperandKind::Unsigned | OperandKind::Branch | OperandKind::Jump => {
            matches!(argument, Argument::Value(_))
        }
        OperandKind::Offset => matches!(argument, Argument::Offset(..)),
    }
}

/// An instruction of three operands.
fn three(
    alloc: Global,
    name: &[u8],
    first: Argument,
    second: Argument,
    third: Argument,
) -> Result<Content, NoMemory>
    ensures { IfOk result (λ made. made ≡ content.Instruction name.now (first ∷ second ∷ third ∷ [])) }
{
    let mut arguments = room(alloc, 3)?;
    arguments.push(first)?;
    arguments.push(second)?;
    arguments.push(third)?;
    let name = SourceName::from_slice(alloc, name)?;
    Ok(Content::Instruction(name, arguments))
}

fn register_in(argument: &Argument) -> Option<u8>
    ensures { result ≡ register_of_argument argument.now }
{
    match argument {
        Argument::Register(register) => Some(*register),
        _ => None,
    }
}

/// A number or a label.
fn value_in(alloc: Global, argument: &Argument) -> Result<Value, LineFault>
    ensures { FormAnswers (value_of_argument argument.now) result }
{
    match argument {
        Argument::Value(value) => Ok(copy_value(alloc, value)?),
        _ => Err(LineFault::Bad),
    }
}

fn number_in(argument: &Argument) -> Option<Integer>
    ensures { result ≡ number_of_argument argument.now }
{
    match argument {
        Argument::Value(Value::Number(number)) => Some(*number),
        _ => None,
    }
}

fn label_in(alloc: Global, argument: &Argument) -> Result<SourceName, LineFault>
    ensures { FormAnswers (label_of_argument argument.now) result }
{
    match argument {
        Argument::Value(Value::Label(name)) => Ok(SourceName::from_slice(alloc, name.as_slice())?),
        _ => Err(LineFault::Bad),
    }
}

/// A number with no `-`.
fn size_in(argument: &Argument) -> Option<u64>
    ensures { result ≡ size_in argument.now }
{
    let number = number_in(argument)?;
    (!number.negative).then_some(number.magnitude)
}
