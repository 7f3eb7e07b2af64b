//! A whole encoded field section (RFC 9204, section 4.5).

ghost use Rattle.std.specs.Prelude.{◌≡◌, Err, IfOk, IfErr};
ghost use Rattle.qpack_spec.specs.Bytes.{Begins};
ghost use Rattle.qpack_spec.specs.Reading.{Block};
ghost use Rattle.qpack_base.specs.declared.parse_error.ParseError.TheVariants.{Memory};
ghost use Rattle.qpack_wire.specs.Alone.{KindFault};
ghost use Rattle.qpack_wire.specs.Blocks.{block_of, SpellsBlock, StopsBlock, GivesBlock, FindsBlockFault};
ghost use Rattle.qpack_wire.specs.Blocks.{GivesBlockFault, lines_in, block_at, ReadsLines, ReadsBlock};
ghost use Rattle.qpack_wire.specs.Memory.{AsksLine, AsksSectionForMemory};

use crate::block::line::BlockLine;
use crate::block::prefix::HeaderPrefix;
use qpack_base::coding::Cursor;
use qpack_base::parse_error::ParseError;
use std::alloc::Global;

/// Reads a whole block: the only prefix and lines whose spellings joined are the bytes.
///
/// Fails at the first of them that cannot be read, in reading order. If the bytes end within it the error is `Integer`
/// or `String` of `UnexpectedEnd`. There is no table: what the prefix and the lines reference need not exist.
pub fn read_block(alloc: Global, block: &[u8]) -> Result<(HeaderPrefix, Vec<BlockLine>), ParseError>
    // What it returns is spelled so.
    ensures found { IfOk result (λ r. SpellsBlock block.now (block_of r)) }
    // It returns what is spelled so, unless memory is refused.
    ensures only { (b : Block) → SpellsBlock block.now b → GivesBlock result b }
    // An error is the reason why the bytes are no block: the first fault in reading order.
    ensures refused { IfErr result (FindsBlockFault block.now) }
    // If they are no block it returns why, unless memory is refused.
    ensures told { (fault : KindFault) → StopsBlock block.now fault → GivesBlockFault result fault }
    // Memory is refused only if a prefix is followed by a whole line, or by a string whose payload is not empty.
    ensures memory { result ≡ Err Memory → AsksSectionForMemory block.now }
    // The clauses above as one function, which reads from left to right.
    ensures exact { ReadsBlock result (block_at block.now) }
{
    read_whole(alloc, &mut Cursor::new(block))
}

/// Reads the block left at the cursor.
fn read_whole(alloc: Global, buf: &mut Cursor) -> Result<(HeaderPrefix, Vec<BlockLine>), ParseError>
    ensures exact { ReadsBlock result (block_at buf.old.rest) }
    ensures memory { result ≡ Err Memory → AsksSectionForMemory buf.old.rest }
{
    let prefix = HeaderPrefix::decode(buf)?;
    let lines = read_lines(alloc, buf)?;
    Ok((prefix, lines))
}

/// Reads lines to the end of the cursor.
fn read_lines(alloc: Global, buf: &mut Cursor) -> Result<Vec<BlockLine>, ParseError>
    ensures exact { ReadsLines result (lines_in buf.old.rest) }
    ensures memory { result ≡ Err Memory → Begins AsksLine buf.old.rest }
{
    let mut lines = Vec::new(alloc);
    while buf.remaining() > 0 {
        let line = BlockLine::decode(alloc, buf)?;
        lines.push(line)?;
    }
    Ok(lines)
}
