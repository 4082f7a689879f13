//! Opens the table in the folder that it is run in, and gets the value of each key of the file keys.txt there, a line
//! each: the proved side of the comparison of many gets in one process in bench/gets.
#![tactic(auto)]

ghost use Rattle.std.specs.Prelude.{◌≡◌, IsSome};

mod gets_error;

use crate::gets_error::GetsError;
use get_tool::read_key;
use outside::FolderStore;
use std::alloc::Global;
use std::fs;
use std::process::ExitCode;
use std::rt::Files;
use table_reader::OpenTable;

/// How many keys have a value, and how many bytes their values have together.
#[derive(Clone, Copy)]
struct Sum {
    found: u64,
    bytes: u64,
}

impl Sum {
    fn add(&mut self, value: &[u8]) {
        self.found = self.found.wrapping_add(1);
        self.bytes = self.bytes.wrapping_add(value.len() as u64);
    }
}

/// Gets the value of the key of a line.
fn get_line<R: Files + AllocGlobal>(
    alloc: Global,
    table: &mut OpenTable,
    store: &mut FolderStore<'_, R>,
    line: &str,
    sum: &mut Sum,
) -> Result<(), GetsError>
    requires { IsSome table.old.footer }
    ensures { table.new.footer ≡ table.old.footer }
{
    let key = read_key(alloc, table.schema(), line.as_bytes())?;
    let clustering = match &key.clustering {
        Some(string) => Some(string.as_slice()),
        None => None,
    };
    if let Some(value) = table.get(store, key.partition.as_slice(), clustering)? {
        sum.add(value.as_slice());
    }
    Ok(())
}

/// Gets the values of all lines' keys.
fn get_lines<R: Files + AllocGlobal>(
    alloc: Global,
    table: &mut OpenTable,
    store: &mut FolderStore<'_, R>,
    keys: &str,
) -> Result<Sum, GetsError>
    requires { IsSome table.old.footer }
{
    let mut sum = Sum { found: 0, bytes: 0 };
    'lines: for line in keys.lines() {
        get_line(alloc, table, store, line, &mut sum)?;
    }
    Ok(sum)
}

/// Gets the values of all keys, and prints how many there are and how many bytes they have.
fn run<R: Files + AllocGlobal + Print>(rt: &R) -> Result<(), GetsError> {
    let alloc = rt.alloc();
    let keys = fs::read_to_string(rt, "keys.txt")?;
    let mut store = FolderStore::new(rt);
    let mut table = OpenTable::open(alloc, &mut store, 1)?;
    table.load_footer(&mut store)?;
    let Sum { found, bytes } = get_lines(alloc, &mut table, &mut store, keys.as_str())?;
    println!(rt; "found {found} bytes {bytes}")?;
    Ok(())
}

fn main(rt: HostRuntime) -> ExitCode {
    match run(&rt) {
        Ok(()) => ExitCode::SUCCESS,
        Err(_) => ExitCode::from(1),
    }
}
