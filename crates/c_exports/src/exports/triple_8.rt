// made by c/exports.py
//! A triple buffer with records of 8 bytes.
ghost use Rattle.c_handles.specs.declared.record.Record8.{Record8};
ghost use Rattle.c_registers.specs.TripleCalls.{IsMade, HasWritten, HasRead, HasPublished, at_hand, in_slot};
ghost use Rattle.c_registers.specs.Handles.{holding, IsMake, IsWrite, IsRead, IsLook, IsHold, IsPublish, IsEnd};

use c_handles::handles::{triple_reader_8, triple_writer_8};
use c_handles::{Record8, TripleReader8, TripleWriter8};
use c_registers::{
    DONE, TripleReader, TripleWriter, end, hold, look, make, publish, read, slot, write,
};
use std::alloc::Global;

#[unsafe(no_mangle)]
pub extern "C" fn nidzaru_triple_8_make(
    alloc: Global,
    first: &Record8,
    writer: &mut triple_writer_8::Handle,
    reader: &mut triple_reader_8::Handle,
) -> u32
    ensures { IsMake (3, 4) (λ p. record { it = p }) (λ g. record { it = g }) IsMade
        (holding writer.old.live writer.old.loose.side) (holding reader.old.live reader.old.loose.side)
        (holding writer.new.live writer.new.loose.side) (holding reader.new.live reader.new.loose.side)
        first.now result }
{
    make::<
        TripleWriter8,
        TripleReader8,
        triple_writer_8::Handle,
        triple_reader_8::Handle,
        Record8,
        TripleWriter<Record8>,
        TripleReader<Record8>,
    >(alloc, first, writer, reader)
}

#[unsafe(no_mangle)]
pub extern "C" fn nidzaru_triple_8_write(
    writer: &mut triple_writer_8::Handle,
    item: &Record8,
) -> u32
    ensures { IsWrite 3 (λ p. record { it = p }) (λ p. p.number) HasWritten
        (holding writer.old.live writer.old.loose.side) (holding writer.new.live writer.new.loose.side)
        item.now result }
{
    write::<TripleWriter8, triple_writer_8::Loose, Record8, TripleWriter<Record8>>(
        3,
        &mut writer.live,
        &mut writer.loose,
        item,
    )
}

#[unsafe(no_mangle)]
pub extern "C" fn nidzaru_triple_8_read(
    reader: &mut triple_reader_8::Handle,
    item: &mut Record8,
    number: &mut u64,
) -> u32
    ensures { IsRead 4 (λ g. record { it = g }) HasRead (holding reader.old.live reader.old.loose.side)
        (holding reader.new.live reader.new.loose.side) item.old item.new number.old number.new result }
{
    read::<TripleReader8, triple_reader_8::Loose, Record8, TripleReader<Record8>>(
        4,
        &mut reader.live,
        &mut reader.loose,
        item,
        number,
    )
}

#[unsafe(no_mangle)]
pub extern "C" fn nidzaru_triple_8_look(
    reader: &mut triple_reader_8::Handle,
    number: &mut u64,
) -> u32
    ensures { IsLook 4 (λ g. record { it = g }) HasRead (holding reader.old.live reader.old.loose.side)
        (holding reader.new.live reader.new.loose.side) number.old number.new result }
{
    look::<TripleReader8, triple_reader_8::Loose, Record8, TripleReader<Record8>>(
        4,
        &mut reader.live,
        &mut reader.loose,
        number,
    )
}

#[unsafe(no_mangle)]
pub extern "C" fn nidzaru_triple_8_hold<'a>(
    reader: &'a mut triple_reader_8::Handle,
    at: &mut &'a [u64],
) -> u32
    ensures { IsHold 4 (λ g. record { it = g }) (λ g. (at_hand {W = Record8} g).words.words)
        (holding reader.old.live reader.old.loose.side) at.old.now at.new.now result }
{
    let live = reader.live;
    match hold::<TripleReader8, triple_reader_8::Loose, Record8>(&mut reader.loose, 4, live) {
        Err(status) => status,
        Ok(record) => {
            *at = record.words.as_slice();
            DONE
        }
    }
}

#[unsafe(no_mangle)]
pub extern "C" fn nidzaru_triple_8_loan<'a>(
    writer: &'a mut triple_writer_8::Handle,
    at: &mut &'a mut [u64],
) -> u32
    ensures { IsHold 3 (λ p. record { it = p }) (λ p. (in_slot {W = Record8} p).words.words)
        (holding writer.old.live writer.old.loose.side) at.old.now at.new.now result }
{
    let live = writer.live;
    match slot::<TripleWriter8, triple_writer_8::Loose, Record8>(&mut writer.loose, 3, live) {
        Err(status) => status,
        Ok(record) => {
            *at = record.words.as_mut_slice();
            DONE
        }
    }
}

#[unsafe(no_mangle)]
pub extern "C" fn nidzaru_triple_8_publish(writer: &mut triple_writer_8::Handle) -> u32
    ensures { IsPublish 3 (λ p. record { it = p }) (λ p. p.number) HasPublished
        (holding writer.old.live writer.old.loose.side) (holding writer.new.live writer.new.loose.side) result }
{
    publish::<TripleWriter8, triple_writer_8::Loose, Record8>(
        3,
        &mut writer.live,
        &mut writer.loose,
    )
}

#[unsafe(no_mangle)]
pub extern "C" fn nidzaru_triple_8_end_writer(
    alloc: Global,
    writer: &mut triple_writer_8::Handle,
) -> u32
    ensures { IsEnd 3 (holding writer.old.live writer.old.loose.side)
        (holding writer.new.live writer.new.loose.side) result }
{
    end::<TripleWriter8, triple_writer_8::Handle>(alloc, writer)
}

#[unsafe(no_mangle)]
pub extern "C" fn nidzaru_triple_8_end_reader(
    alloc: Global,
    reader: &mut triple_reader_8::Handle,
) -> u32
    ensures { IsEnd 4 (holding reader.old.live reader.old.loose.side)
        (holding reader.new.live reader.new.loose.side) result }
{
    end::<TripleReader8, triple_reader_8::Handle>(alloc, reader)
}
