// made by c/exports.py
//! A triple buffer with records of 1,024 bytes.
ghost use Rattle.c_handles.specs.declared.record.Record1024.{Record1024};
ghost use Rattle.c_registers.specs.TripleCalls.{IsMade, HasWritten, HasRead, HasPublished, at_hand, in_slot};
ghost use Rattle.c_registers.specs.Handles.{holding, IsMake, IsWrite, IsRead, IsLook, IsHold, IsPublish, IsEnd};

use c_handles::handles::{triple_reader_1024, triple_writer_1024};
use c_handles::{Record1024, TripleReader1024, TripleWriter1024};
use c_registers::{
    DONE, TripleReader, TripleWriter, end, hold, look, make, publish, read, slot, write,
};
use std::alloc::Global;

#[unsafe(no_mangle)]
pub extern "C" fn nidzaru_triple_1024_make(
    alloc: Global,
    first: &Record1024,
    writer: &mut triple_writer_1024::Handle,
    reader: &mut triple_reader_1024::Handle,
) -> u32
    ensures { IsMake (19, 20) (λ p. record { it = p }) (λ g. record { it = g }) IsMade
        (holding writer.old.live writer.old.loose.side) (holding reader.old.live reader.old.loose.side)
        (holding writer.new.live writer.new.loose.side) (holding reader.new.live reader.new.loose.side)
        first.now result }
{
    make::<
        TripleWriter1024,
        TripleReader1024,
        triple_writer_1024::Handle,
        triple_reader_1024::Handle,
        Record1024,
        TripleWriter<Record1024>,
        TripleReader<Record1024>,
    >(alloc, first, writer, reader)
}

#[unsafe(no_mangle)]
pub extern "C" fn nidzaru_triple_1024_write(
    writer: &mut triple_writer_1024::Handle,
    item: &Record1024,
) -> u32
    ensures { IsWrite 19 (λ p. record { it = p }) (λ p. p.number) HasWritten
        (holding writer.old.live writer.old.loose.side) (holding writer.new.live writer.new.loose.side)
        item.now result }
{
    write::<TripleWriter1024, triple_writer_1024::Loose, Record1024, TripleWriter<Record1024>>(
        19,
        &mut writer.live,
        &mut writer.loose,
        item,
    )
}

#[unsafe(no_mangle)]
pub extern "C" fn nidzaru_triple_1024_read(
    reader: &mut triple_reader_1024::Handle,
    item: &mut Record1024,
    number: &mut u64,
) -> u32
    ensures { IsRead 20 (λ g. record { it = g }) HasRead (holding reader.old.live reader.old.loose.side)
        (holding reader.new.live reader.new.loose.side) item.old item.new number.old number.new result }
{
    read::<TripleReader1024, triple_reader_1024::Loose, Record1024, TripleReader<Record1024>>(
        20,
        &mut reader.live,
        &mut reader.loose,
        item,
        number,
    )
}

#[unsafe(no_mangle)]
pub extern "C" fn nidzaru_triple_1024_look(
    reader: &mut triple_reader_1024::Handle,
    number: &mut u64,
) -> u32
    ensures { IsLook 20 (λ g. record { it = g }) HasRead (holding reader.old.live reader.old.loose.side)
        (holding reader.new.live reader.new.loose.side) number.old number.new result }
{
    look::<TripleReader1024, triple_reader_1024::Loose, Record1024, TripleReader<Record1024>>(
        20,
        &mut reader.live,
        &mut reader.loose,
        number,
    )
}

#[unsafe(no_mangle)]
pub extern "C" fn nidzaru_triple_1024_hold<'a>(
    reader: &'a mut triple_reader_1024::Handle,
    at: &mut &'a [u64],
) -> u32
    ensures { IsHold 20 (λ g. record { it = g }) (λ g. (at_hand {W = Record1024} g).words.words)
        (holding reader.old.live reader.old.loose.side) at.old.now at.new.now result }
{
    let live = reader.live;
    match hold::<TripleReader1024, triple_reader_1024::Loose, Record1024>(
        &mut reader.loose,
        20,
        live,
    ) {
        Err(status) => status,
        Ok(record) => {
            *at = record.words.as_slice();
            DONE
        }
    }
}

#[unsafe(no_mangle)]
pub extern "C" fn nidzaru_triple_1024_loan<'a>(
    writer: &'a mut triple_writer_1024::Handle,
    at: &mut &'a mut [u64],
) -> u32
    ensures { IsHold 19 (λ p. record { it = p }) (λ p. (in_slot {W = Record1024} p).words.words)
        (holding writer.old.live writer.old.loose.side) at.old.now at.new.now result }
{
    let live = writer.live;
    match slot::<TripleWriter1024, triple_writer_1024::Loose, Record1024>(
        &mut writer.loose,
        19,
        live,
    ) {
        Err(status) => status,
        Ok(record) => {
            *at = record.words.as_mut_slice();
            DONE
        }
    }
}

#[unsafe(no_mangle)]
pub extern "C" fn nidzaru_triple_1024_publish(writer: &mut triple_writer_1024::Handle) -> u32
    ensures { IsPublish 19 (λ p. record { it = p }) (λ p. p.number) HasPublished
        (holding writer.old.live writer.old.loose.side) (holding writer.new.live writer.new.loose.side) result }
{
    publish::<TripleWriter1024, triple_writer_1024::Loose, Record1024>(
        19,
        &mut writer.live,
        &mut writer.loose,
    )
}

#[unsafe(no_mangle)]
pub extern "C" fn nidzaru_triple_1024_end_writer(
    alloc: Global,
    writer: &mut triple_writer_1024::Handle,
) -> u32
    ensures { IsEnd 19 (holding writer.old.live writer.old.loose.side)
        (holding writer.new.live writer.new.loose.side) result }
{
    end::<TripleWriter1024, triple_writer_1024::Handle>(alloc, writer)
}

#[unsafe(no_mangle)]
pub extern "C" fn nidzaru_triple_1024_end_reader(
    alloc: Global,
    reader: &mut triple_reader_1024::Handle,
) -> u32
    ensures { IsEnd 20 (holding reader.old.live reader.old.loose.side)
        (holding reader.new.live reader.new.loose.side) result }
{
    end::<TripleReader1024, triple_reader_1024::Handle>(alloc, reader)
}
