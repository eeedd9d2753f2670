// The examples of document 01 (Examples) for build, list, find, put and the fill figure, one line for each call.
// Whatever follows a colon is what the call answered and what it left in the table.
#![tactic(auto)]

use rules::PutAnswer;
use std::io;
use table_find::fill::fill;
use table_find::find::find;
use table_list::list::list;
use table_put::build::build;
use table_put::put::put;
use test_print::{Keys, Words};

fn show_build(rt: &impl Print, m: u32, r: u32, table: &mut [u8], keys: &[u32]) -> io::Result<()> {
    match build(m, r, table, keys) {
        Ok(()) => println!(rt; "build{}:{}", Keys(keys), Words(table)),
        Err(refusal) => println!(rt; "build{}: {refusal}", Keys(keys)),
    }
}

// The keys that were listed stand at the front.
fn show_list(rt: &impl Print, m: u32, r: u32, table: &[u8]) -> io::Result<()> {
    let mut slots = [0u32; 8];
    match list(m, r, table, &mut slots) {
        Ok(n) => {
            let listed = slots.get(..n).unwrap_or(&[]);
            println!(rt; "list of{}:{}", Words(table), Keys(listed))
        }
        Err(refusal) => println!(rt; "list of{}: {refusal}", Words(table)),
    }
}

fn show_find(rt: &impl Print, m: u32, r: u32, table: &[u8], key: u32) -> io::Result<()> {
    match find(m, r, table, key) {
        Ok(false) => println!(rt; "find {key:02X}: absent"),
        Ok(true) => println!(rt; "find {key:02X}: present"),
        Err(refusal) => println!(rt; "find {key:02X}: {refusal}"),
    }
}

fn show_put(rt: &impl Print, m: u32, r: u32, table: &mut [u8], key: u32) -> io::Result<()> {
    match put(m, r, table, key) {
        Ok(PutAnswer::Found) => println!(rt; "put {key:02X}: found"),
        Ok(PutAnswer::Inserted) => println!(rt; "put {key:02X}: inserted"),
        Err(refusal) => println!(rt; "put {key:02X}: {refusal}"),
    }
}

fn show_fill(rt: &impl Print, m: u32, r: u32, table: &[u8]) -> io::Result<()> {
    match fill(m, r, table) {
        Ok(figure) => println!(rt; "fill: {figure}"),
        Err(refusal) => println!(rt; "fill: {refusal}"),
    }
}

fn four_keys(rt: &impl Print) -> io::Result<()> {
    let mut table = [0u8; 20];
    show_build(rt, 3, 4, &mut table, &[0x35, 0x31, 0x4C, 0x38])?;
    show_build(rt, 3, 4, &mut table, &[0x38, 0x4C, 0x31, 0x35])?;
    show_list(rt, 3, 4, &table)?;
    show_find(rt, 3, 4, &table, 0x34)?;
    show_find(rt, 3, 4, &table, 0x38)?;
    show_fill(rt, 3, 4, &table)?;
    Ok(())
}

fn last_home(rt: &impl Print) -> io::Result<()> {
    let mut table = [0u8; 20];
    show_build(rt, 3, 4, &mut table, &[0x7F, 0x7E])?;
    show_find(rt, 3, 4, &table, 0x80)?;
    show_put(rt, 3, 4, &mut table, 0x80)?;
    show_build(rt, 3, 4, &mut table, &[0x80])?;
    show_build(rt, 3, 4, &mut table, &[])?;
    Ok(())
}

fn full_table(rt: &impl Print) -> io::Result<()> {
    let mut table = [0u8; 8];
    show_build(rt, 1, 1, &mut table, &[0, 1])?;
    show_put(rt, 1, 1, &mut table, 2)?;
    show_put(rt, 1, 1, &mut table, 1)?;
    show_build(rt, 1, 1, &mut table, &[3, 2])?;
    Ok(())
}

// Equal remainders, a virgin bit alone, a lock, and a table that is one word short.
fn refused_lists(rt: &impl Print) -> io::Result<()> {
    show_list(rt, 1, 1, &[0, 0, 0, 0x30, 0, 0x50, 0, 0])?;
    show_list(rt, 1, 1, &[0, 0, 0, 0x20, 0, 0, 0, 0])?;
    show_list(rt, 1, 1, &[0, 0, 0, 0x80, 0, 0, 0, 0])?;
    show_list(rt, 1, 1, &[0, 0, 0, 0, 0, 0])?;
    Ok(())
}

fn main(rt: HostRuntime) -> io::Result<()> {
    rt.write_all(b"Shape 3, 4\n")?;
    four_keys(&rt)?;
    last_home(&rt)?;
    rt.write_all(b"Shape 1, 1\n")?;
    full_table(&rt)?;
    refused_lists(&rt)?;
    Ok(())
}
