// made by c/exports.py
//! A triple buffer with records of 4,096 bytes.
ghost use Rattle.c_handles.specs.declared.record.Record4096.{Record4096};
ghost use Rattle.c_registers.specs.TripleCalls.{IsMade, HasWritten, HasRead, HasPublished, at_hand, in_slot};
ghost use Rattle.c_registers.specs.Handles.{holding, IsMake, IsWrite, IsRead, IsLook, IsHold, IsPublish, IsEnd};

use c_handles::handles::{triple_reader_4096, triple_writer_4096};
use c_handles::{Record4096, TripleReader4096, TripleWriter4096};
use c_registers::{
    DONE, TripleReader, TripleWriter, end, hold, look, make, publish, read, slot, write,
};
use std::alloc::Global;

#[unsafe(no_mangle)]
pub extern "C" fn nidzaru_triple_4096_make(
    alloc: Global,
    first: &Record4096,
    writer: &mut triple_writer_4096::Handle,
    reader: &mut triple_reader_4096::Handle,
) -> u32
    ensures { IsMake (23, 24) (λ p. record { it = p }) (λ g. record { it = g }) IsMade
        (holding writer.old.live writer.old.loose.side) (holding reader.old.live reader.old.loose.side)
        (holding writer.new.live writer.new.loose.side) (holding reader.new.live reader.new.loose.side)
        first.now result }
{
    make::<
        TripleWriter4096,
        TripleReader4096,
        triple_writer_4096::Handle,
        triple_reader_4096::Handle,
        Record4096,
        TripleWriter<Record4096>,
        TripleReader<Record4096>,
    >(alloc, first, writer, reader)
}

#[unsafe(no_mangle)]
pub extern "C" fn nidzaru_triple_4096_write(
    writer: &mut triple_writer_4096::Handle,
    item: &Record4096,
) -> u32
    ensures { IsWrite 23 (λ p. record { it = p }) (λ p. p.number) HasWritten
        (holding writer.old.live writer.old.loose.side) (holding writer.new.live writer.new.loose.side)
        item.now result }
{
    write::<TripleWriter4096, triple_writer_4096::Loose, Record4096, TripleWriter<Record4096>>(
        23,
        &mut writer.live,
        &mut writer.loose,
        item,
    )
}

#[unsafe(no_mangle)]
pub extern "C" fn nidzaru_triple_4096_read(
    reader: &mut triple_reader_4096::Handle,
    item: &mut Record4096,
    number: &mut u64,
) -> u32
    ensures { IsRead 24 (λ g. record { it = g }) HasRead (holding reader.old.live reader.old.loose.side)
        (holding reader.new.live reader.new.loose.side) item.old item.new number.old number.new result }
{
    read::<TripleReader4096, triple_reader_4096::Loose, Record4096, TripleReader<Record4096>>(
        24,
        &mut reader.live,
        &mut reader.loose,
        item,
        number,
    )
}

#[unsafe(no_mangle)]
pub extern "C" fn nidzaru_triple_4096_look(
    reader: &mut triple_reader_4096::Handle,
    number: &mut u64,
) -> u32
    ensures { IsLook 24 (λ g. record { it = g }) HasRead (holding reader.old.live reader.old.loose.side)
        (holding reader.new.live reader.new.loose.side) number.old number.new result }
{
    look::<TripleReader4096, triple_reader_4096::Loose, Record4096, TripleReader<Record4096>>(
        24,
        &mut reader.live,
        &mut reader.loose,
        number,
    )
}

#[unsafe(no_mangle)]
pub extern "C" fn nidzaru_triple_4096_hold<'a>(
    reader: &'a mut triple_reader_4096::Handle,
    at: &mut &'a [u64],
) -> u32
    ensures { IsHold 24 (λ g. record { it = g }) (λ g. (at_hand {W = Record4096} g).words.words)
        (holding reader.old.live reader.old.loose.side) at.old.now at.new.now result }
{
    let live = reader.live;
    match hold::<TripleReader4096, triple_reader_4096::Loose, Record4096>(
        &mut reader.loose,
        24,
        live,
    ) {
        Err(status) => status,
        Ok(record) => {
            *at = record.words.as_slice();
            DONE
        }
    }
}

#[unsafe(no_mangle)]
pub extern "C" fn nidzaru_triple_4096_loan<'a>(
    writer: &'a mut triple_writer_4096::Handle,
    at: &mut &'a mut [u64],
) -> u32
    ensures { IsHold 23 (λ p. record { it = p }) (λ p. (in_slot {W = Record4096} p).words.words)
        (holding writer.old.live writer.old.loose.side) at.old.now at.new.now result }
{
    let live = writer.live;
    match slot::<TripleWriter4096, triple_writer_4096::Loose, Record4096>(
        &mut writer.loose,
        23,
        live,
    ) {
        Err(status) => status,
        Ok(record) => {
            *at = record.words.as_mut_slice();
            DONE
        }
    }
}

#[unsafe(no_mangle)]
pub extern "C" fn nidzaru_triple_4096_publish(writer: &mut triple_writer_4096::Handle) -> u32
    ensures { IsPublish 23 (λ p. record { it = p }) (λ p. p.number) HasPublished
        (holding writer.old.live writer.old.loose.side) (holding writer.new.live writer.new.loose.side) result }
{
    publish::<TripleWriter4096, triple_writer_4096::Loose, Record4096>(
        23,
        &mut writer.live,
        &mut writer.loose,
    )
}

#[unsafe(no_mangle)]
pub extern "C" fn nidzaru_triple_4096_end_writer(
    alloc: Global,
    writer: &mut triple_writer_4096::Handle,
) -> u32
    ensures { IsEnd 23 (holding writer.old.live writer.old.loose.side)
        (holding writer.new.live writer.new.loose.side) result }
{
    end::<TripleWriter4096, triple_writer_4096::Handle>(alloc, writer)
}

#[unsafe(no_mangle)]
pub extern "C" fn nidzaru_triple_4096_end_reader(
    alloc: Global,
    reader: &mut triple_reader_4096::Handle,
) -> u32
    ensures { IsEnd 24 (holding reader.old.live reader.old.loose.side)
        (holding reader.new.live reader.new.loose.side) result }
{
    end::<TripleReader4096, triple_reader_4096::Handle>(alloc, reader)
}
