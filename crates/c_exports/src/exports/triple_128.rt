// made by c/exports.py
//! A triple buffer with records of 128 bytes.
ghost use Rattle.c_handles.specs.declared.record.Record128.{Record128};
ghost use Rattle.c_registers.specs.TripleCalls.{IsMade, HasWritten, HasRead, HasPublished, at_hand, in_slot};
ghost use Rattle.c_registers.specs.Handles.{holding, IsMake, IsWrite, IsRead, IsLook, IsHold, IsPublish, IsEnd};

use c_handles::handles::{triple_reader_128, triple_writer_128};
use c_handles::{Record128, TripleReader128, TripleWriter128};
use c_registers::{
    DONE, TripleReader, TripleWriter, end, hold, look, make, publish, read, slot, write,
};
use std::alloc::Global;

#[unsafe(no_mangle)]
pub extern "C" fn nidzaru_triple_128_make(
    alloc: Global,
    first: &Record128,
    writer: &mut triple_writer_128::Handle,
    reader: &mut triple_reader_128::Handle,
) -> u32
    ensures { IsMake (41, 42) (λ p. record { it = p }) (λ g. record { it = g }) IsMade
        (holding writer.old.live writer.old.loose.side) (holding reader.old.live reader.old.loose.side)
        (holding writer.new.live writer.new.loose.side) (holding reader.new.live reader.new.loose.side)
        first.now result }
{
    make::<
        TripleWriter128,
        TripleReader128,
        triple_writer_128::Handle,
        triple_reader_128::Handle,
        Record128,
        TripleWriter<Record128>,
        TripleReader<Record128>,
    >(alloc, first, writer, reader)
}

#[unsafe(no_mangle)]
pub extern "C" fn nidzaru_triple_128_write(
    writer: &mut triple_writer_128::Handle,
    item: &Record128,
) -> u32
    ensures { IsWrite 41 (λ p. record { it = p }) (λ p. p.number) HasWritten
        (holding writer.old.live writer.old.loose.side) (holding writer.new.live writer.new.loose.side)
        item.now result }
{
    write::<TripleWriter128, triple_writer_128::Loose, Record128, TripleWriter<Record128>>(
        41,
        &mut writer.live,
        &mut writer.loose,
        item,
    )
}

#[unsafe(no_mangle)]
pub extern "C" fn nidzaru_triple_128_read(
    reader: &mut triple_reader_128::Handle,
    item: &mut Record128,
    number: &mut u64,
) -> u32
    ensures { IsRead 42 (λ g. record { it = g }) HasRead (holding reader.old.live reader.old.loose.side)
        (holding reader.new.live reader.new.loose.side) item.old item.new number.old number.new result }
{
    read::<TripleReader128, triple_reader_128::Loose, Record128, TripleReader<Record128>>(
        42,
        &mut reader.live,
        &mut reader.loose,
        item,
        number,
    )
}

#[unsafe(no_mangle)]
pub extern "C" fn nidzaru_triple_128_look(
    reader: &mut triple_reader_128::Handle,
    number: &mut u64,
) -> u32
    ensures { IsLook 42 (λ g. record { it = g }) HasRead (holding reader.old.live reader.old.loose.side)
        (holding reader.new.live reader.new.loose.side) number.old number.new result }
{
    look::<TripleReader128, triple_reader_128::Loose, Record128, TripleReader<Record128>>(
        42,
        &mut reader.live,
        &mut reader.loose,
        number,
    )
}

#[unsafe(no_mangle)]
pub extern "C" fn nidzaru_triple_128_hold<'a>(
    reader: &'a mut triple_reader_128::Handle,
    at: &mut &'a [u64],
) -> u32
    ensures { IsHold 42 (λ g. record { it = g }) (λ g. (at_hand {W = Record128} g).words.words)
        (holding reader.old.live reader.old.loose.side) at.old.now at.new.now result }
{
    let live = reader.live;
    match hold::<TripleReader128, triple_reader_128::Loose, Record128>(
        &mut reader.loose,
        42,
        live,
    ) {
        Err(status) => status,
        Ok(record) => {
            *at = record.words.as_slice();
            DONE
        }
    }
}

#[unsafe(no_mangle)]
pub extern "C" fn nidzaru_triple_128_loan<'a>(
    writer: &'a mut triple_writer_128::Handle,
    at: &mut &'a mut [u64],
) -> u32
    ensures { IsHold 41 (λ p. record { it = p }) (λ p. (in_slot {W = Record128} p).words.words)
        (holding writer.old.live writer.old.loose.side) at.old.now at.new.now result }
{
    let live = writer.live;
    match slot::<TripleWriter128, triple_writer_128::Loose, Record128>(
        &mut writer.loose,
        41,
        live,
    ) {
        Err(status) => status,
        Ok(record) => {
            *at = record.words.as_mut_slice();
            DONE
        }
    }
}

#[unsafe(no_mangle)]
pub extern "C" fn nidzaru_triple_128_publish(writer: &mut triple_writer_128::Handle) -> u32
    ensures { IsPublish 41 (λ p. record { it = p }) (λ p. p.number) HasPublished
        (holding writer.old.live writer.old.loose.side) (holding writer.new.live writer.new.loose.side) result }
{
    publish::<TripleWriter128, triple_writer_128::Loose, Record128>(
        41,
        &mut writer.live,
        &mut writer.loose,
    )
}

#[unsafe(no_mangle)]
pub extern "C" fn nidzaru_triple_128_end_writer(
    alloc: Global,
    writer: &mut triple_writer_128::Handle,
) -> u32
    ensures { IsEnd 41 (holding writer.old.live writer.old.loose.side)
        (holding writer.new.live writer.new.loose.side) result }
{
    end::<TripleWriter128, triple_writer_128::Handle>(alloc, writer)
}

#[unsafe(no_mangle)]
pub extern "C" fn nidzaru_triple_128_end_reader(
    alloc: Global,
    reader: &mut triple_reader_128::Handle,
) -> u32
    ensures { IsEnd 42 (holding reader.old.live reader.old.loose.side)
        (holding reader.new.live reader.new.loose.side) result }
{
    end::<TripleReader128, triple_reader_128::Handle>(alloc, reader)
}
