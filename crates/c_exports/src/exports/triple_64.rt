// made by c/exports.py
//! A triple buffer with records of 64 bytes.
ghost use Rattle.c_handles.specs.declared.record.Record64.{Record64};
ghost use Rattle.c_registers.specs.TripleCalls.{IsMade, HasWritten, HasRead, HasPublished, at_hand, in_slot};
ghost use Rattle.c_registers.specs.Handles.{holding, IsMake, IsWrite, IsRead, IsLook, IsHold, IsPublish, IsEnd};

use c_handles::handles::{triple_reader_64, triple_writer_64};
use c_handles::{Record64, TripleReader64, TripleWriter64};
use c_registers::{
    DONE, TripleReader, TripleWriter, end, hold, look, make, publish, read, slot, write,
};
use std::alloc::Global;

#[unsafe(no_mangle)]
pub extern "C" fn nidzaru_triple_64_make(
    alloc: Global,
    first: &Record64,
    writer: &mut triple_writer_64::Handle,
    reader: &mut triple_reader_64::Handle,
) -> u32
    ensures { IsMake (11, 12) (λ p. record { it = p }) (λ g. record { it = g }) IsMade
        (holding writer.old.live writer.old.loose.side) (holding reader.old.live reader.old.loose.side)
        (holding writer.new.live writer.new.loose.side) (holding reader.new.live reader.new.loose.side)
        first.now result }
{
    make::<
        TripleWriter64,
        TripleReader64,
        triple_writer_64::Handle,
        triple_reader_64::Handle,
        Record64,
        TripleWriter<Record64>,
        TripleReader<Record64>,
    >(alloc, first, writer, reader)
}

#[unsafe(no_mangle)]
pub extern "C" fn nidzaru_triple_64_write(
    writer: &mut triple_writer_64::Handle,
    item: &Record64,
) -> u32
    ensures { IsWrite 11 (λ p. record { it = p }) (λ p. p.number) HasWritten
        (holding writer.old.live writer.old.loose.side) (holding writer.new.live writer.new.loose.side)
        item.now result }
{
    write::<TripleWriter64, triple_writer_64::Loose, Record64, TripleWriter<Record64>>(
        11,
        &mut writer.live,
        &mut writer.loose,
        item,
    )
}

#[unsafe(no_mangle)]
pub extern "C" fn nidzaru_triple_64_read(
    reader: &mut triple_reader_64::Handle,
    item: &mut Record64,
    number: &mut u64,
) -> u32
    ensures { IsRead 12 (λ g. record { it = g }) HasRead (holding reader.old.live reader.old.loose.side)
        (holding reader.new.live reader.new.loose.side) item.old item.new number.old number.new result }
{
    read::<TripleReader64, triple_reader_64::Loose, Record64, TripleReader<Record64>>(
        12,
        &mut reader.live,
        &mut reader.loose,
        item,
        number,
    )
}

#[unsafe(no_mangle)]
pub extern "C" fn nidzaru_triple_64_look(
    reader: &mut triple_reader_64::Handle,
    number: &mut u64,
) -> u32
    ensures { IsLook 12 (λ g. record { it = g }) HasRead (holding reader.old.live reader.old.loose.side)
        (holding reader.new.live reader.new.loose.side) number.old number.new result }
{
    look::<TripleReader64, triple_reader_64::Loose, Record64, TripleReader<Record64>>(
        12,
        &mut reader.live,
        &mut reader.loose,
        number,
    )
}

#[unsafe(no_mangle)]
pub extern "C" fn nidzaru_triple_64_hold<'a>(
    reader: &'a mut triple_reader_64::Handle,
    at: &mut &'a [u64],
) -> u32
    ensures { IsHold 12 (λ g. record { it = g }) (λ g. (at_hand {W = Record64} g).words.words)
        (holding reader.old.live reader.old.loose.side) at.old.now at.new.now result }
{
    let live = reader.live;
    match hold::<TripleReader64, triple_reader_64::Loose, Record64>(&mut reader.loose, 12, live) {
        Err(status) => status,
        Ok(record) => {
            *at = record.words.as_slice();
            DONE
        }
    }
}

#[unsafe(no_mangle)]
pub extern "C" fn nidzaru_triple_64_loan<'a>(
    writer: &'a mut triple_writer_64::Handle,
    at: &mut &'a mut [u64],
) -> u32
    ensures { IsHold 11 (λ p. record { it = p }) (λ p. (in_slot {W = Record64} p).words.words)
        (holding writer.old.live writer.old.loose.side) at.old.now at.new.now result }
{
    let live = writer.live;
    match slot::<TripleWriter64, triple_writer_64::Loose, Record64>(&mut writer.loose, 11, live) {
        Err(status) => status,
        Ok(record) => {
            *at = record.words.as_mut_slice();
            DONE
        }
    }
}

#[unsafe(no_mangle)]
pub extern "C" fn nidzaru_triple_64_publish(writer: &mut triple_writer_64::Handle) -> u32
    ensures { IsPublish 11 (λ p. record { it = p }) (λ p. p.number) HasPublished
        (holding writer.old.live writer.old.loose.side) (holding writer.new.live writer.new.loose.side) result }
{
    publish::<TripleWriter64, triple_writer_64::Loose, Record64>(
        11,
        &mut writer.live,
        &mut writer.loose,
    )
}

#[unsafe(no_mangle)]
pub extern "C" fn nidzaru_triple_64_end_writer(
    alloc: Global,
    writer: &mut triple_writer_64::Handle,
) -> u32
    ensures { IsEnd 11 (holding writer.old.live writer.old.loose.side)
        (holding writer.new.live writer.new.loose.side) result }
{
    end::<TripleWriter64, triple_writer_64::Handle>(alloc, writer)
}

#[unsafe(no_mangle)]
pub extern "C" fn nidzaru_triple_64_end_reader(
    alloc: Global,
    reader: &mut triple_reader_64::Handle,
) -> u32
    ensures { IsEnd 12 (holding reader.old.live reader.old.loose.side)
        (holding reader.new.live reader.new.loose.side) result }
{
    end::<TripleReader64, triple_reader_64::Handle>(alloc, reader)
}
