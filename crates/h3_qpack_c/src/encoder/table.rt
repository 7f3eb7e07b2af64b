//! What an encoding end shows of its table.

ghost use Rattle.std.specs.Prelude.{◌≡◌, length};
ghost use Rattle.qpack_spec.specs.Field.{total_size};
ghost use Rattle.qpack_spec.specs.Table.{fields_in, insert_count};
ghost use Rattle.h3_qpack_c.specs.Crossing.{Gives};
ghost use Rattle.h3_qpack_c.specs.Tables.{entry_at};

use crate::answers::Given;
use crate::encoder::Handle;
use crate::encoder::lend::state;
use crate::tables::give_entry;

/// Returns how many insertions were made.
#[unsafe(no_mangle)]
pub extern "C" fn h3q_encoder_insert_count(handle: &mut Handle) -> usize
    ensures same { handle.new.value ≡ handle.old.value }
    ensures exact { result ≡ insert_count handle.old.value.end.table }
{
    let state = state(handle);
    let count = state.end.table().total_inserted();
    count
}

/// Returns how many insertions the peer is known to have received.
#[unsafe(no_mangle)]
pub extern "C" fn h3q_encoder_known_received_count(handle: &mut Handle) -> usize
    ensures same { handle.new.value ≡ handle.old.value }
    ensures exact { result ≡ handle.old.value.end.table.known_received_count }
{
    let state = state(handle);
    let count = state.end.table().known_received_count();
    count
}

/// Returns the capacity of the table, in bytes.
#[unsafe(no_mangle)]
pub extern "C" fn h3q_encoder_capacity(handle: &mut Handle) -> usize
    ensures same { handle.new.value ≡ handle.old.value }
    ensures exact { result ≡ handle.old.value.end.table.capacity }
{
    let state = state(handle);
    let capacity = state.end.table().max_mem_size();
    capacity
}

/// Returns the size of the table, in bytes: the sum of its entries' sizes.
#[unsafe(no_mangle)]
pub extern "C" fn h3q_encoder_table_size(handle: &mut Handle) -> usize
    ensures same { handle.new.value ≡ handle.old.value }
    ensures exact { result ≡ total_size (fields_in handle.old.value.end.table.live) }
{
    let state = state(handle);
    let size = state.end.table().used();
    size
}

/// Returns how many sections wait for acknowledgments.
#[unsafe(no_mangle)]
pub extern "C" fn h3q_encoder_unacknowledged(handle: &mut Handle) -> usize
    ensures same { handle.new.value ≡ handle.old.value }
    ensures exact { result ≡ length handle.old.value.end.table.unacknowledged }
{
    let state = state(handle);
    let count = state.end.unacknowledged();
    count
}

/// Returns how many entries the table has.
#[unsafe(no_mangle)]
pub extern "C" fn h3q_encoder_entries(handle: &mut Handle) -> usize
    ensures same { handle.new.value ≡ handle.old.value }
    ensures exact { result ≡ length handle.old.value.end.table.live }
{
    let state = state(handle);
    let count = state.end.table().count();
    count
}

/// Copies the name and the value of an entry to the caller's memory, one after the other, if both fit. Index 0 is the
/// newest entry.
#[unsafe(no_mangle)]
pub extern "C" fn h3q_encoder_entry(handle: &mut Handle, index: usize, out: &mut [u8]) -> Given
    ensures same { handle.new.value ≡ handle.old.value }
    ensures gives { Gives (entry_at handle.old.value.end.table index) out.old out.new result }
{
    let state = state(handle);
    let answer = give_entry(state.end.table(), index, out);
    answer
}
