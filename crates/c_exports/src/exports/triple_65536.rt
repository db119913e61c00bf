// made by c/exports.py
//! A triple buffer with records of 65,536 bytes.
ghost use Rattle.c_handles.specs.declared.record.Record65536.{Record65536};
ghost use Rattle.c_registers.specs.TripleCalls.{IsMade, HasWritten, HasRead, HasPublished, at_hand, in_slot};
ghost use Rattle.c_registers.specs.Handles.{holding, IsMake, IsWrite, IsRead, IsLook, IsHold, IsPublish, IsEnd};

use c_handles::handles::{triple_reader_65536, triple_writer_65536};
use c_handles::{Record65536, TripleReader65536, TripleWriter65536};
use c_registers::{
    DONE, TripleReader, TripleWriter, end, hold, look, make, publish, read, slot, write,
};
use std::alloc::Global;

#[unsafe(no_mangle)]
pub extern "C" fn nidzaru_triple_65536_make(
    alloc: Global,
    first: &Record65536,
    writer: &mut triple_writer_65536::Handle,
    reader: &mut triple_reader_65536::Handle,
) -> u32
    ensures { IsMake (27, 28) (λ p. record { it = p }) (λ g. record { it = g }) IsMade
        (holding writer.old.live writer.old.loose.side) (holding reader.old.live reader.old.loose.side)
        (holding writer.new.live writer.new.loose.side) (holding reader.new.live reader.new.loose.side)
        first.now result }
{
    make::<
        TripleWriter65536,
        TripleReader65536,
        triple_writer_65536::Handle,
        triple_reader_65536::Handle,
        Record65536,
        TripleWriter<Record65536>,
        TripleReader<Record65536>,
    >(alloc, first, writer, reader)
}

#[unsafe(no_mangle)]
pub extern "C" fn nidzaru_triple_65536_write(
    writer: &mut triple_writer_65536::Handle,
    item: &Record65536,
) -> u32
    ensures { IsWrite 27 (λ p. record { it = p }) (λ p. p.number) HasWritten
        (holding writer.old.live writer.old.loose.side) (holding writer.new.live writer.new.loose.side)
        item.now result }
{
    write::<TripleWriter65536, triple_writer_65536::Loose, Record65536, TripleWriter<Record65536>>(
        27,
        &mut writer.live,
        &mut writer.loose,
        item,
    )
}

#[unsafe(no_mangle)]
pub extern "C" fn nidzaru_triple_65536_read(
    reader: &mut triple_reader_65536::Handle,
    item: &mut Record65536,
    number: &mut u64,
) -> u32
    ensures { IsRead 28 (λ g. record { it = g }) HasRead (holding reader.old.live reader.old.loose.side)
        (holding reader.new.live reader.new.loose.side) item.old item.new number.old number.new result }
{
    read::<TripleReader65536, triple_reader_65536::Loose, Record65536, TripleReader<Record65536>>(
        28,
        &mut reader.live,
        &mut reader.loose,
        item,
        number,
    )
}

#[unsafe(no_mangle)]
pub extern "C" fn nidzaru_triple_65536_look(
    reader: &mut triple_reader_65536::Handle,
    number: &mut u64,
) -> u32
    ensures { IsLook 28 (λ g. record { it = g }) HasRead (holding reader.old.live reader.old.loose.side)
        (holding reader.new.live reader.new.loose.side) number.old number.new result }
{
    look::<TripleReader65536, triple_reader_65536::Loose, Record65536, TripleReader<Record65536>>(
        28,
        &mut reader.live,
        &mut reader.loose,
        number,
    )
}

#[unsafe(no_mangle)]
pub extern "C" fn nidzaru_triple_65536_hold<'a>(
    reader: &'a mut triple_reader_65536::Handle,
    at: &mut &'a [u64],
) -> u32
    ensures { IsHold 28 (λ g. record { it = g }) (λ g. (at_hand {W = Record65536} g).words.words)
        (holding reader.old.live reader.old.loose.side) at.old.now at.new.now result }
{
    let live = reader.live;
    match hold::<TripleReader65536, triple_reader_65536::Loose, Record65536>(
        &mut reader.loose,
        28,
        live,
    ) {
        Err(status) => status,
        Ok(record) => {
            *at = record.words.as_slice();
            DONE
        }
    }
}

#[unsafe(no_mangle)]
pub extern "C" fn nidzaru_triple_65536_loan<'a>(
    writer: &'a mut triple_writer_65536::Handle,
    at: &mut &'a mut [u64],
) -> u32
    ensures { IsHold 27 (λ p. record { it = p }) (λ p. (in_slot {W = Record65536} p).words.words)
        (holding writer.old.live writer.old.loose.side) at.old.now at.new.now result }
{
    let live = writer.live;
    match slot::<TripleWriter65536, triple_writer_65536::Loose, Record65536>(
        &mut writer.loose,
        27,
        live,
    ) {
        Err(status) => status,
        Ok(record) => {
            *at = record.words.as_mut_slice();
            DONE
        }
    }
}

#[unsafe(no_mangle)]
pub extern "C" fn nidzaru_triple_65536_publish(writer: &mut triple_writer_65536::Handle) -> u32
    ensures { IsPublish 27 (λ p. record { it = p }) (λ p. p.number) HasPublished
        (holding writer.old.live writer.old.loose.side) (holding writer.new.live writer.new.loose.side) result }
{
    publish::<TripleWriter65536, triple_writer_65536::Loose, Record65536>(
        27,
        &mut writer.live,
        &mut writer.loose,
    )
}

#[unsafe(no_mangle)]
pub extern "C" fn nidzaru_triple_65536_end_writer(
    alloc: Global,
    writer: &mut triple_writer_65536::Handle,
) -> u32
    ensures { IsEnd 27 (holding writer.old.live writer.old.loose.side)
        (holding writer.new.live writer.new.loose.side) result }
{
    end::<TripleWriter65536, triple_writer_65536::Handle>(alloc, writer)
}

#[unsafe(no_mangle)]
pub extern "C" fn nidzaru_triple_65536_end_reader(
    alloc: Global,
    reader: &mut triple_reader_65536::Handle,
) -> u32
    ensures { IsEnd 28 (holding reader.old.live reader.old.loose.side)
        (holding reader.new.live reader.new.loose.side) result }
{
    end::<TripleReader65536, triple_reader_65536::Handle>(alloc, reader)
}
