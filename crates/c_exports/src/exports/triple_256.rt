// made by c/exports.py
//! A triple buffer with records of 256 bytes.
ghost use Rattle.c_handles.specs.declared.record.Record256.{Record256};
ghost use Rattle.c_registers.specs.TripleCalls.{IsMade, HasWritten, HasRead, HasPublished, at_hand, in_slot};
ghost use Rattle.c_registers.specs.Handles.{holding, IsMake, IsWrite, IsRead, IsLook, IsHold, IsPublish, IsEnd};

use c_handles::handles::{triple_reader_256, triple_writer_256};
use c_handles::{Record256, TripleReader256, TripleWriter256};
use c_registers::{
    DONE, TripleReader, TripleWriter, end, hold, look, make, publish, read, slot, write,
};
use std::alloc::Global;

#[unsafe(no_mangle)]
pub extern "C" fn nidzaru_triple_256_make(
    alloc: Global,
    first: &Record256,
    writer: &mut triple_writer_256::Handle,
    reader: &mut triple_reader_256::Handle,
) -> u32
    ensures { IsMake (15, 16) (λ p. record { it = p }) (λ g. record { it = g }) IsMade
        (holding writer.old.live writer.old.loose.side) (holding reader.old.live reader.old.loose.side)
        (holding writer.new.live writer.new.loose.side) (holding reader.new.live reader.new.loose.side)
        first.now result }
{
    make::<
        TripleWriter256,
        TripleReader256,
        triple_writer_256::Handle,
        triple_reader_256::Handle,
        Record256,
        TripleWriter<Record256>,
        TripleReader<Record256>,
    >(alloc, first, writer, reader)
}

#[unsafe(no_mangle)]
pub extern "C" fn nidzaru_triple_256_write(
    writer: &mut triple_writer_256::Handle,
    item: &Record256,
) -> u32
    ensures { IsWrite 15 (λ p. record { it = p }) (λ p. p.number) HasWritten
        (holding writer.old.live writer.old.loose.side) (holding writer.new.live writer.new.loose.side)
        item.now result }
{
    write::<TripleWriter256, triple_writer_256::Loose, Record256, TripleWriter<Record256>>(
        15,
        &mut writer.live,
        &mut writer.loose,
        item,
    )
}

#[unsafe(no_mangle)]
pub extern "C" fn nidzaru_triple_256_read(
    reader: &mut triple_reader_256::Handle,
    item: &mut Record256,
    number: &mut u64,
) -> u32
    ensures { IsRead 16 (λ g. record { it = g }) HasRead (holding reader.old.live reader.old.loose.side)
        (holding reader.new.live reader.new.loose.side) item.old item.new number.old number.new result }
{
    read::<TripleReader256, triple_reader_256::Loose, Record256, TripleReader<Record256>>(
        16,
        &mut reader.live,
        &mut reader.loose,
        item,
        number,
    )
}

#[unsafe(no_mangle)]
pub extern "C" fn nidzaru_triple_256_look(
    reader: &mut triple_reader_256::Handle,
    number: &mut u64,
) -> u32
    ensures { IsLook 16 (λ g. record { it = g }) HasRead (holding reader.old.live reader.old.loose.side)
        (holding reader.new.live reader.new.loose.side) number.old number.new result }
{
    look::<TripleReader256, triple_reader_256::Loose, Record256, TripleReader<Record256>>(
        16,
        &mut reader.live,
        &mut reader.loose,
        number,
    )
}

#[unsafe(no_mangle)]
pub extern "C" fn nidzaru_triple_256_hold<'a>(
    reader: &'a mut triple_reader_256::Handle,
    at: &mut &'a [u64],
) -> u32
    ensures { IsHold 16 (λ g. record { it = g }) (λ g. (at_hand {W = Record256} g).words.words)
        (holding reader.old.live reader.old.loose.side) at.old.now at.new.now result }
{
    let live = reader.live;
    match hold::<TripleReader256, triple_reader_256::Loose, Record256>(
        &mut reader.loose,
        16,
        live,
    ) {
        Err(status) => status,
        Ok(record) => {
            *at = record.words.as_slice();
            DONE
        }
    }
}

#[unsafe(no_mangle)]
pub extern "C" fn nidzaru_triple_256_loan<'a>(
    writer: &'a mut triple_writer_256::Handle,
    at: &mut &'a mut [u64],
) -> u32
    ensures { IsHold 15 (λ p. record { it = p }) (λ p. (in_slot {W = Record256} p).words.words)
        (holding writer.old.live writer.old.loose.side) at.old.now at.new.now result }
{
    let live = writer.live;
    match slot::<TripleWriter256, triple_writer_256::Loose, Record256>(
        &mut writer.loose,
        15,
        live,
    ) {
        Err(status) => status,
        Ok(record) => {
            *at = record.words.as_mut_slice();
            DONE
        }
    }
}

#[unsafe(no_mangle)]
pub extern "C" fn nidzaru_triple_256_publish(writer: &mut triple_writer_256::Handle) -> u32
    ensures { IsPublish 15 (λ p. record { it = p }) (λ p. p.number) HasPublished
        (holding writer.old.live writer.old.loose.side) (holding writer.new.live writer.new.loose.side) result }
{
    publish::<TripleWriter256, triple_writer_256::Loose, Record256>(
        15,
        &mut writer.live,
        &mut writer.loose,
    )
}

#[unsafe(no_mangle)]
pub extern "C" fn nidzaru_triple_256_end_writer(
    alloc: Global,
    writer: &mut triple_writer_256::Handle,
) -> u32
    ensures { IsEnd 15 (holding writer.old.live writer.old.loose.side)
        (holding writer.new.live writer.new.loose.side) result }
{
    end::<TripleWriter256, triple_writer_256::Handle>(alloc, writer)
}

#[unsafe(no_mangle)]
pub extern "C" fn nidzaru_triple_256_end_reader(
    alloc: Global,
    reader: &mut triple_reader_256::Handle,
) -> u32
    ensures { IsEnd 16 (holding reader.old.live reader.old.loose.side)
        (holding reader.new.live reader.new.loose.side) result }
{
    end::<TripleReader256, triple_reader_256::Handle>(alloc, reader)
}
