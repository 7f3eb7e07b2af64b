//! The dynamic table, as an encoder uses it and as a decoder does.

use h3_qpack::HeaderField;
use h3_qpack::dynamic::{
    DynamicLookupResult, DynamicTable, DynamicTableEncoder, EntryIndex, Error, FindsEntries, Index,
    NoIndex, ReceivedTable, SortedIndex, Steps,
};
use h3_qpack::encoder::set_dynamic_table_size;
use h3_qpack::field::FieldLine;
use h3_qpack::static_::StaticTable;
use qpack_testing::cases::{Call, Field, Mark, Subject};
use std::alloc::Global;

/// A table of an encoder.
#[derive(Drop)]
pub(crate) struct Table {
    table: DynamicTable,
    lacked_memory: bool,
}

/// A table of a decoder, which needs no index.
#[derive(Drop)]
pub(crate) struct Received {
    table: ReceivedTable,
}

/// A table of an encoding end, whose index is of hashes.
#[derive(Drop)]
pub(crate) struct Hashed {
    table: DynamicTable<Index>,
}

/// A kind of table: with an index, or without one.
pub(crate) trait Kind: EntryIndex {
    /// Makes an empty table.
    fn empty(alloc: Global) -> DynamicTable<Self>;
}

impl Kind for SortedIndex {
    fn empty(alloc: Global) -> DynamicTable {
        DynamicTable::new(alloc)
    }
}

impl Kind for NoIndex {
    fn empty(alloc: Global) -> ReceivedTable {
        DynamicTable::without_index(alloc)
    }
}

impl Kind for Index {
    fn empty(alloc: Global) -> DynamicTable<Index> {
        DynamicTable::with_seed(alloc, 0)
    }
}

/// Makes a table of settings: its capacity, the maximum that is agreed on or `any`, and fields that are put.
pub(crate) fn table_of<I: Kind>(call: &mut Call<'_>) -> DynamicTable<I> {
    let mut table = I::empty(call.alloc());
    set_up(call, &mut table);
    table
}

/// Sets an empty table up as words say.
fn set_up<I: EntryIndex>(call: &mut Call<'_>, table: &mut DynamicTable<I>) {
    let capacity = call.count();
    match call.word() {
        "" | "any" => {}
        maximum => {
            let agreed = agree(table, maximum.parse().unwrap_or(0));
            must_be_done(call, agreed);
        }
    }
    must_be_done(call, table.set_max_size(capacity));
    let done = put_all(call, table);
    must_be_done(call, done);
}

/// Notes that a setting was refused, or its memory.
fn must_be_done(call: &mut Call<'_>, done: Result<(), Error>) {
    match done {
        Ok(()) => {}
        Err(Error::Memory) => call.lack_memory(),
        Err(_) => call.fail("a setting is refused"),
    }
}

/// Appends an entry, or why there is none.
fn show_entry(call: &mut Call<'_>, entry: Result<&HeaderField, Error>) {
    match entry {
        Ok(field) => {
            call.say("entry");
            call.show_field(field.as_line());
        }
        Err(error) => call.show_done(&Err(error)),
    }
}

/// Puts the fields of words. Returns the result of the last.
fn put_all<I: EntryIndex>(call: &mut Call<'_>, table: &mut DynamicTable<I>) -> Result<(), Error> {
    let mut done = Ok(());
    for field in &call.headers() {
        done = put(call.alloc(), table, field);
        if done == Err(Error::Memory) {
            done = put(call.alloc(), table, field);
        }
    }
    done
}

/// Puts a copy of a field.
fn put<I: EntryIndex>(
    alloc: Global,
    table: &mut DynamicTable<I>,
    field: &HeaderField,
) -> Result<(), Error> {
    table.put(HeaderField::from_pair(alloc, &field.name, &field.value)?)
}

/// Agrees on a maximum, as long as nothing was inserted and the capacity is within it.
pub(crate) fn agree<I: EntryIndex>(table: &mut DynamicTable<I>, max: usize) -> Result<(), Error> {
    if table.total_inserted() == 0 && table.max_mem_size() <= max {
        return table.set_agreed_max(max);
    }
    Err(Error::InvalidTrackingCount)
}

/// Makes a call that each table has.
fn call_any<I: EntryIndex>(word: &str, call: &mut Call<'_>, table: &mut DynamicTable<I>) {
    match word {
        "puts" => {
            let done = put_all(call, table);
            call.show_done(&done);
        }
        "sets" => {
            let done = table.set_max_size(call.count());
            call.show_done(&done);
        }
        "agrees" => {
            let done = agree(table, call.count());
            call.show_done(&done);
        }
        _ => show_state(word, call, table),
    }
}

/// Appends a part of the state of a table.
pub(crate) fn show_state<I: EntryIndex>(word: &str, call: &mut Call<'_>, table: &DynamicTable<I>) {
    match word {
        "capacity" => call.show_capacity(table.max_mem_size(), table.agreed_max()),
        "inserted" => call.show(&table.total_inserted()),
        "relative" => {
            let index = call.count();
            show_entry(call, table.get_relative(index));
        }
        "relative-under" => {
            let (base, index) = (call.count(), call.count());
            show_entry(call, table.decoder(base).get_relative(index));
        }
        "post-base" => {
            let (base, index) = (call.count(), call.count());
            show_entry(call, table.decoder(base).get_postbase(index));
        }
        _ => call.fail("there is no such call"),
    }
}

impl Subject for Received {
    fn begin(call: &mut Call<'_>, _size: usize) -> Option<Received> {
        Some(Received {
            table: table_of::<NoIndex>(call),
        })
    }

    fn make(&mut self, word: &str, call: &mut Call<'_>) {
        call_any(word, call, &mut self.table);
    }
}

impl Subject for Hashed {
    fn begin(call: &mut Call<'_>, _size: usize) -> Option<Hashed> {
        Some(Hashed {
            table: table_of::<Index>(call),
        })
    }

    fn make(&mut self, word: &str, call: &mut Call<'_>) {
        match word {
            "newest" => show_newest(call, &mut self.table),
            _ => call_any(word, call, &mut self.table),
        }
    }
}

/// Appends the newest entry with a field, whether the number of entries that were compared is in bounds, and the newest
/// with its name.
fn show_newest<I: FindsEntries>(call: &mut Call<'_>, table: &mut DynamicTable<I>) {
    let (least, most) = (call.number(), call.number());
    let fields = call.headers();
    call.holds(fields.len() == 1, "no field is sought, or several");
    for field in &fields {
        let mut steps = Steps::new();
        call.show_parts(&table.newest_equal(field, &mut steps));
        call.say(" ");
        call.show(&(least <= steps.count() && steps.count() <= most));
        call.say(" ");
        call.show_parts(&newest_name(table, &field.name));
    }
}

/// Returns the newest entry with a name, as a block finds it.
fn newest_name<I: FindsEntries>(table: &mut DynamicTable<I>, name: &[u8]) -> Option<usize> {
    let block = table.encoder(0);
    let field = FieldLine::new(name, b"");
    let sought = block.seek(&field, StaticTable::find_name(field.name));
    let newest = block.newest_name(&field, &sought);
    block.release();
    newest
}

impl Subject for Table {
    fn begin(call: &mut Call<'_>, _size: usize) -> Option<Table> {
        Some(Table {
            table: table_of::<SortedIndex>(call),
            lacked_memory: false,
        })
    }

    fn make(&mut self, word: &str, call: &mut Call<'_>) {
        self.make_any(word, call);
        self.lacked_memory |= call.answer().contains("refused Memory");
    }

    fn lacked_memory(&self) -> bool {
        self.lacked_memory
    }
}

impl Table {
    /// Makes a call, whether or not memory is refused.
    fn make_any(&mut self, word: &str, call: &mut Call<'_>) {
        match word {
            "finds" | "finds-name" | "inserts" | "block" => self.show_given_up(word, call),
            "sends-found" | "sends-inserted" => self.show_sent(word, call),
            "commits" => self.show_committed(call),
            "gives-up" => self.show_asked_and_given_up(call),
            "newest" => show_newest(call, &mut self.table),
            "oldest" => {
                let stream = call.number();
                call.show_parts(&self.table.oldest_required(stream));
            }
            "tracked" => show_tracked(call, &self.table),
            "sets-size" => self.show_size_set(call),
            "blocked" => call.show(&self.table.blocked_blocks()),
            "unacknowledged" => call.show(&self.table.unacknowledged_blocks()),
            "limits" | "receives" | "acknowledges" | "cancels" => {
                let done = call_with_number(&mut self.table, word, call.count());
                call.show_done(&done);
            }
            _ => call_any(word, call, &mut self.table),
        }
    }

    /// Appends the answers of a block, which is given up then.
    fn show_given_up(&mut self, word: &str, call: &mut Call<'_>) {
        let fields = call.headers();
        let mut block = self.table.encoder(8);
        show_block(word, call, &mut block, &fields);
        block.release();
    }

    /// Appends the answers of a block, which is sent on a stream then, and how many insertions it requires.
    fn show_sent(&mut self, word: &str, call: &mut Call<'_>) {
        let stream = call.number();
        let fields = call.headers();
        let mut block = self.table.encoder(stream);
        show_block(word, call, &mut block, &fields);
        let required = block.required_insert_count();
        let sent = block.commit(required).map(|()| required);
        call.say(" requires ");
        call.show_value(&sent);
    }

    /// Appends the answers of a block. The block is sent on a stream then, with a required insert count that need not be
    /// its own.
    fn show_committed(&mut self, call: &mut Call<'_>) {
        let (stream, required) = (call.number(), call.count());
        let fields = call.fields();
        let mut block = self.table.encoder(stream);
        show_asked(call, &mut block, &fields);
        let done = block.commit(required);
        call.say("; ");
        call.show_done(&done);
    }

    /// Appends the answers of a block, which is given up then.
    fn show_asked_and_given_up(&mut self, call: &mut Call<'_>) {
        let fields = call.fields();
        let mut block = self.table.encoder(8);
        show_asked(call, &mut block, &fields);
        block.release();
    }
}

/// Appends how many blocks wait, how many are blocked, and how many insertions are known to be received.
fn show_tracked(call: &mut Call<'_>, table: &DynamicTable) {
    call.show(&table.unacknowledged_blocks());
    call.say_number(" unacknowledged, ", table.blocked_blocks());
    call.say_number(" blocked, ", table.known_received_count());
    call.say(" known");
}

impl Table {
    /// Sets a capacity by its instruction. Appends the bytes that were written too.
    fn show_size_set(&mut self, call: &mut Call<'_>) {
        let mut written = Vec::new(call.alloc());
        let set = set_dynamic_table_size(&mut self.table, &mut written, call.count());
        call.show_done(&set);
        call.say("; ");
        call.show_bytes(&written);
    }
}

/// Makes a call with a number, which changes what the table knows of the decoder, or allows it.
fn call_with_number(table: &mut DynamicTable, word: &str, number: usize) -> Result<(), Error> {
    match word {
        "limits" => table.set_max_blocked(number),
        "acknowledges" => table.untrack_block(number as u64),
        "receives" => {
            table.update_largest_received(number);
            Ok(())
        }
        _ => {
            table.untrack_stream(number as u64);
            Ok(())
        }
    }
}

/// Appends what a block finds for each of some fields, or how it inserts each.
fn show_block(
    word: &str,
    call: &mut Call<'_>,
    block: &mut DynamicTableEncoder<'_>,
    fields: &[HeaderField],
) {
    if word == "block" {
        show_whole_block(call, block, fields);
        return;
    }
    for field in fields {
        match word {
            "finds" | "sends-found" => call.show_value(&block.find(field)),
            "finds-name" => show_name(call, block, &field.as_line()),
            _ => call.show_value(&block.insert(field)),
        }
    }
}

/// Appends where a block finds the name of a field: a static field, or the newest entry that has it and may be referenced.
fn show_name(call: &mut Call<'_>, block: &DynamicTableEncoder<'_>, field: &FieldLine<'_>) {
    let sought = block.seek(field, StaticTable::find_name(field.name));
    let found = match sought.static_name() {
        Some(index) => DynamicLookupResult::Static(index),
        None => place_of(block, block.newest_name(field, &sought)),
    };
    call.show_value(&Ok::<DynamicLookupResult, Error>(found));
}

/// Returns where a block finds an entry, if there is one and it may be referenced.
fn place_of(block: &DynamicTableEncoder<'_>, newest: Option<usize>) -> DynamicLookupResult {
    let Some(absolute) = newest else {
        return DynamicLookupResult::NotFound;
    };
    if !block.may_reference(absolute) {
        return DynamicLookupResult::NotFound;
    }
    match block.base().checked_sub(absolute) {
        Some(index) => DynamicLookupResult::Relative { index, absolute },
        None => DynamicLookupResult::PostBase {
            index: absolute.saturating_sub(block.base()).saturating_sub(1),
            absolute,
        },
    }
}

/// Appends the base of a block and its bounds, what it finds for the first of some fields, and how it inserts each.
fn show_whole_block(
    call: &mut Call<'_>,
    block: &mut DynamicTableEncoder<'_>,
    fields: &[HeaderField],
) {
    call.say_number("base ", block.base());
    call.say(", ");
    call.show_capacity(block.max_size(), block.agreed_max());
    if let Some(first) = fields.first() {
        call.say("; ");
        call.show_value(&block.find(first));
    }
    show_insertions(call, block, fields);
    call.say_number("; ", block.total_inserted());
    call.say(" inserted");
}

/// Appends how a block inserts each of some fields.
fn show_insertions(
    call: &mut Call<'_>,
    block: &mut DynamicTableEncoder<'_>,
    fields: &[HeaderField],
) {
    for field in fields {
        call.say("; ");
        call.show_value(&block.insert(field));
    }
}

/// Appends the base of a block, and what it answers to each of some fields.
fn show_asked(call: &mut Call<'_>, block: &mut DynamicTableEncoder<'_>, fields: &[Field]) {
    call.say_number("base ", block.base());
    for field in fields {
        call.say("; ");
        show_answer(call, block, field);
    }
}

/// Appends what a block finds for a field with the mark `reuse`, or how it inserts another.
fn show_answer(call: &mut Call<'_>, block: &mut DynamicTableEncoder<'_>, field: &Field) {
    match HeaderField::from_pair(call.alloc(), &field.name, &field.value) {
        Ok(sought) if field.mark == Mark::Reuse => call.show_value(&block.find(&sought)),
        Ok(inserted) => call.show_value(&block.insert(&inserted)),
        Err(_) => call.lack_memory(),
    }
}
