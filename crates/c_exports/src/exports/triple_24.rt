// made by c/exports.py
//! A triple buffer with records of 24 bytes.
ghost use Rattle.c_handles.specs.declared.record.Record24.{Record24};
ghost use Rattle.c_registers.specs.TripleCalls.{IsMade, HasWritten, HasRead, HasPublished, at_hand, in_slot};
ghost use Rattle.c_registers.specs.Handles.{holding, IsMake, IsWrite, IsRead, IsLook, IsHold, IsPublish, IsEnd};

use c_handles::handles::{triple_reader_24, triple_writer_24};
use c_handles::{Record24, TripleReader24, TripleWriter24};
use c_registers::{
    DONE, TripleReader, TripleWriter, end, hold, look, make, publish, read, slot, write,
};
use std::alloc::Global;

#[unsafe(no_mangle)]
pub extern "C" fn nidzaru_triple_24_make(
    alloc: Global,
    first: &Record24,
    writer: &mut triple_writer_24::Handle,
    reader: &mut triple_reader_24::Handle,
) -> u32
    ensures { IsMake (7, 8) (λ p. record { it = p }) (λ g. record { it = g }) IsMade
        (holding writer.old.live writer.old.loose.side) (holding reader.old.live reader.old.loose.side)
        (holding writer.new.live writer.new.loose.side) (holding reader.new.live reader.new.loose.side)
        first.now result }
{
    make::<
        TripleWriter24,
        TripleReader24,
        triple_writer_24::Handle,
        triple_reader_24::Handle,
        Record24,
        TripleWriter<Record24>,
        TripleReader<Record24>,
    >(alloc, first, writer, reader)
}

#[unsafe(no_mangle)]
pub extern "C" fn nidzaru_triple_24_write(
    writer: &mut triple_writer_24::Handle,
    item: &Record24,
) -> u32
    ensures { IsWrite 7 (λ p. record { it = p }) (λ p. p.number) HasWritten
        (holding writer.old.live writer.old.loose.side) (holding writer.new.live writer.new.loose.side)
        item.now result }
{
    write::<TripleWriter24, triple_writer_24::Loose, Record24, TripleWriter<Record24>>(
        7,
        &mut writer.live,
        &mut writer.loose,
        item,
    )
}

#[unsafe(no_mangle)]
pub extern "C" fn nidzaru_triple_24_read(
    reader: &mut triple_reader_24::Handle,
    item: &mut Record24,
    number: &mut u64,
) -> u32
    ensures { IsRead 8 (λ g. record { it = g }) HasRead (holding reader.old.live reader.old.loose.side)
        (holding reader.new.live reader.new.loose.side) item.old item.new number.old number.new result }
{
    read::<TripleReader24, triple_reader_24::Loose, Record24, TripleReader<Record24>>(
        8,
        &mut reader.live,
        &mut reader.loose,
        item,
        number,
    )
}

#[unsafe(no_mangle)]
pub extern "C" fn nidzaru_triple_24_look(
    reader: &mut triple_reader_24::Handle,
    number: &mut u64,
) -> u32
    ensures { IsLook 8 (λ g. record { it = g }) HasRead (holding reader.old.live reader.old.loose.side)
        (holding reader.new.live reader.new.loose.side) number.old number.new result }
{
    look::<TripleReader24, triple_reader_24::Loose, Record24, TripleReader<Record24>>(
        8,
        &mut reader.live,
        &mut reader.loose,
        number,
    )
}

#[unsafe(no_mangle)]
pub extern "C" fn nidzaru_triple_24_hold<'a>(
    reader: &'a mut triple_reader_24::Handle,
    at: &mut &'a [u64],
) -> u32
    ensures { IsHold 8 (λ g. record { it = g }) (λ g. (at_hand {W = Record24} g).words.words)
        (holding reader.old.live reader.old.loose.side) at.old.now at.new.now result }
{
    let live = reader.live;
    match hold::<TripleReader24, triple_reader_24::Loose, Record24>(&mut reader.loose, 8, live) {
        Err(status) => status,
        Ok(record) => {
            *at = record.words.as_slice();
            DONE
        }
    }
}

#[unsafe(no_mangle)]
pub extern "C" fn nidzaru_triple_24_loan<'a>(
    writer: &'a mut triple_writer_24::Handle,
    at: &mut &'a mut [u64],
) -> u32
    ensures { IsHold 7 (λ p. record { it = p }) (λ p. (in_slot {W = Record24} p).words.words)
        (holding writer.old.live writer.old.loose.side) at.old.now at.new.now result }
{
    let live = writer.live;
    match slot::<TripleWriter24, triple_writer_24::Loose, Record24>(&mut writer.loose, 7, live) {
        Err(status) => status,
        Ok(record) => {
            *at = record.words.as_mut_slice();
            DONE
        }
    }
}

#[unsafe(no_mangle)]
pub extern "C" fn nidzaru_triple_24_publish(writer: &mut triple_writer_24::Handle) -> u32
    ensures { IsPublish 7 (λ p. record { it = p }) (λ p. p.number) HasPublished
        (holding writer.old.live writer.old.loose.side) (holding writer.new.live writer.new.loose.side) result }
{
    publish::<TripleWriter24, triple_writer_24::Loose, Record24>(
        7,
        &mut writer.live,
        &mut writer.loose,
    )
}

#[unsafe(no_mangle)]
pub extern "C" fn nidzaru_triple_24_end_writer(
    alloc: Global,
    writer: &mut triple_writer_24::Handle,
) -> u32
    ensures { IsEnd 7 (holding writer.old.live writer.old.loose.side)
        (holding writer.new.live writer.new.loose.side) result }
{
    end::<TripleWriter24, triple_writer_24::Handle>(alloc, writer)
}

#[unsafe(no_mangle)]
pub extern "C" fn nidzaru_triple_24_end_reader(
    alloc: Global,
    reader: &mut triple_reader_24::Handle,
) -> u32
    ensures { IsEnd 8 (holding reader.old.live reader.old.loose.side)
        (holding reader.new.live reader.new.loose.side) result }
{
    end::<TripleReader24, triple_reader_24::Handle>(alloc, reader)
}
