//! Vectors of scripts and of their refusals.
use super::*;
use key_types::Schema;
use schema_text::read_schema;
use std::alloc::Global;
use std::process::Abort;
use std::test::Fail;

/// How many batches and how many puts the script has, for two readers.
fn counts(alloc: Global, schema: &Schema, text: &[u8]) -> Result<(usize, u64), ScriptError> {
    let script = read_script(alloc, schema, 2, text)?;
    Ok((script.batches.len(), script.puts))
}

/// Asserts that the script's one line is refused so.
fn assert_refused(rt: &impl Abort, alloc: Global, schema: &Schema, line: &[u8], want: LineCause) {
    assert_eq!(rt;
        counts(alloc, schema, line),
        Err(ScriptError::BadLine(1, want))
    );
}

#[test]
fn places(rt: HostRuntime) -> Result<(), Fail> {
    let alloc = rt.alloc();
    let plain = read_schema(alloc, b"(int; ; text)")?;
    let fixed = read_schema(alloc, b"(int; int; text; blob)")?;
    let rows: [(bool, &[u8], usize); 36] = [
        (false, b"p", 1),
        (false, b"g", 1),
        (false, b"s", 1),
        (false, b"-", 1),
        (false, b"-x", 1),
        (false, b"  x", 2),
        (false, b" -- x", 1),
        (false, b"put (x) () = 'b'", 5),
        (false, b"putx (1) () = 'b'", 3),
        (false, b"put (1, 2) () = 'b'", 6),
        (false, b"put (01) () = 'b'", 6),
        (false, b"put (1) () = 'b' c", 17),
        (false, b"put (1) () = 'b", 15),
        (false, b"put (1) () 'b'", 11),
        (false, b"put (2147483648) () = b", 22),
        (false, b"put (1) static = 'b'", 8),
        (true, b"put (1) static = 'a'", 17),
        (true, b"put (1) stat = 'a'", 12),
        (false, b"gets (1) ()", 3),
        (false, b"get", 3),
        (false, b"get (1)", 7),
        (false, b"get (1, 2) ()", 6),
        (false, b"get (1) () = 'a'", 11),
        (false, b"get (1) (),", 10),
        (false, b"get (2147483648) () x", 20),
        (false, b"get (1) static", 8),
        (true, b"get (1) ()", 9),
        (true, b"get (1) (2) 3", 12),
        (true, b"get (1) staticx", 14),
        (true, b"get (1) static = 0x", 15),
        (false, b"syn", 3),
        (false, b"sync 1", 5),
        (false, b"syncs", 4),
        (false, b"  sync sync", 7),
        (false, b"put (1) () = 'b')", 16),
        (true, b"put (1) (2) = 0x", 14),
    ];
    for (is_fixed, line, at) in rows {
        let schema = if is_fixed { &fixed } else { &plain };
        assert_refused(&rt, alloc, schema, line, LineCause::BadText(at));
    }
    Ok(())
}

#[test]
fn causes(rt: HostRuntime) -> Result<(), Fail> {
    let alloc = rt.alloc();
    let fixed = read_schema(alloc, b"(int; int; text; blob)")?;
    let rows: [(&[u8], LineCause); 6] = [
        (b"-- \xFF", LineCause::NotUtf8),
        (b"get (1) (2) \xFF", LineCause::NotUtf8),
        (
            b"put (2147483648) (2147483648) = 'b'",
            LineCause::OutOfRange(5),
        ),
        (b"get (2147483648) static", LineCause::OutOfRange(5)),
        (b"get(-2147483649)(1)", LineCause::OutOfRange(4)),
        (b"get (1) (2147483648)", LineCause::OutOfRange(9)),
    ];
    for (line, cause) in rows {
        assert_refused(&rt, alloc, &fixed, line, cause);
    }
    let text = b"sync\n--\nput (1) (2) = 'a'\nget (x)\nput";
    let refused = counts(alloc, &fixed, text);
    assert_eq!(rt;
        refused,
        Err(ScriptError::BadLine(4, LineCause::BadText(5)))
    );
    Ok(())
}

#[test]
fn long_lines(rt: HostRuntime) -> Result<(), Fail> {
    let alloc = rt.alloc();
    let schema = read_schema(alloc, b"(int; text; text)")?;
    let rows: [(&[u8], usize, &[u8], LineCause); 3] = [
        (
            b"put (1) ('",
            1_021,
            b"') = ''",
            LineCause::KeyTooLong(1_025),
        ),
        (b"get (1) ('", 1_021, b"')", LineCause::KeyTooLong(1_025)),
        (
            b"put (1) ('') = '",
            65_535,
            b"'",
            LineCause::ValueTooLong(65_536),
        ),
    ];
    for (front, most, back, cause) in rows {
        let mut line = front.to_vec(alloc)?;
        line.resize(front.len() + most, b'x')?;
        line.extend_from_slice(back)?;
        assert_eq!(rt; counts(alloc, &schema, &line).is_ok(), true);
        line.insert(front.len(), b'x')?;
        assert_refused(&rt, alloc, &schema, &line, cause);
    }
    Ok(())
}

#[test]
fn every_type(rt: HostRuntime) -> Result<(), Fail> {
    let alloc = rt.alloc();
    let schema = read_schema(
        alloc,
        b"(tinyint, smallint, int, bigint; text, blob, boolean, tuple<int, text> reversed; blob)",
    )?;
    let text =
        b"put(-128,-32768,-2147483648,-9223372036854775808)('it''s',0xaB,true,(1,''))=0x00\n";
    assert_eq!(rt; counts(alloc, &schema, text), Ok((1, 1)));
    let rows: [(&[u8], LineCause); 3] = [
        (
            b"put (1, 2, 3, 9223372036854775808) ('', 0x, false, (1, 'a')) = 0x",
            LineCause::OutOfRange(14),
        ),
        (
            b"get (1, 2, 3, 4) ('', 0x, false, (2147483648, 'a'))",
            LineCause::OutOfRange(34),
        ),
        (
            b"get (1, 2, 3, 4) ('', 0x, trues, (1, 'a'))",
            LineCause::BadText(30),
        ),
    ];
    for (line, cause) in rows {
        assert_refused(&rt, alloc, &schema, line, cause);
    }
    Ok(())
}

/// A script with three batches, of which the last is empty.
const BATCHES: &[u8] = b"put (1) (2) = 'it''s'\nget (1) static\nsync\n\n--\n\
put(1)static=0xFf\n get (1) (2) \nget(1)static\nput (1) (2) = ''\nsync";

#[test]
fn puts_of_batches(rt: HostRuntime) -> Result<(), Fail> {
    let alloc = rt.alloc();
    let schema = read_schema(alloc, b"(int; int; text; blob)")?;
    assert_eq!(rt; counts(alloc, &schema, b""), Ok((1, 0)));
    assert_eq!(rt; counts(alloc, &schema, b"sync\n sync \n"), Ok((3, 0)));
    assert_eq!(rt; counts(alloc, &schema, BATCHES), Ok((3, 3)));
    let script = read_script(alloc, &schema, 2, BATCHES)?;
    let row: &[u8] = &[0x40, 0x80, 0, 0, 1, 0x38, 0x40, 0x80, 0, 0, 2, 0x38];
    let partition: &[u8] = &[0x40, 0x80, 0, 0, 1, 0x38];
    let rows: [(usize, usize, u32, &[u8], &[u8]); 3] = [
        (0, 0, 1, row, b"it's"),
        (1, 0, 6, partition, b"\xFF"),
        (1, 1, 9, row, b""),
    ];
    for (batch, i, line, key, value) in rows {
        let held = script
            .batches
            .get(batch)
            .filter(|batch| i < batch.put_count());
        let put = held.map(|batch| batch.put(i));
        let seen = put.map(|put| (put.line, put.partition, put.key, put.value));
        assert_eq!(rt; seen, Some((line, partition, key, value)));
    }
    Ok(())
}

#[test]
fn gets_of_batches(rt: HostRuntime) -> Result<(), Fail> {
    let alloc = rt.alloc();
    let schema = read_schema(alloc, b"(int; int; text; blob)")?;
    let script = read_script(alloc, &schema, 2, BATCHES)?;
    let row: &[u8] = &[0x40, 0x80, 0, 0, 1, 0x38, 0x40, 0x80, 0, 0, 2, 0x38];
    let partition: &[u8] = &[0x40, 0x80, 0, 0, 1, 0x38];
    let rows: [(usize, usize, u32, u32, &[u8]); 3] = [
        (0, 0, 2, 0, partition),
        (1, 0, 7, 1, row),
        (1, 1, 8, 0, partition),
    ];
    for (batch, i, line, reader, key) in rows {
        let held = script
            .batches
            .get(batch)
            .filter(|batch| i < batch.get_count());
        let get = held.map(|batch| batch.get(i));
        let seen = get.map(|get| (get.line, get.reader, get.partition, get.key));
        assert_eq!(rt; seen, Some((line, reader, partition, key)));
    }
    Ok(())
}

/// Three rows and two gets from the number 7.
const SEVEN: &[u8] =
    b"put ('u0', 0) (0) = '7e4328bc0f7dfb8a'\nput ('u1', 0) (1) = 'f4a61a7f8fa82e91'\n\
get ('u1', 0) (1)\nput ('u2', 0) (2) = 'e8155a62cd769fcc'\nget ('u0', 0) (0)\n";

/// The last of twelve rows and the last of their five gets, from the greatest number.
const LAST: &[u8] =
    b"put ('u0', 1) (10) = '8555c146b1a3574c'\nput ('u1', 1) (11) = '31d3316498a88dab'\n\
get ('u2', 0) (2)\n";

#[test]
fn generated_scripts(rt: HostRuntime) -> Result<(), Fail> {
    let alloc = rt.alloc();
    let schema = read_schema(alloc, b"(text, int; bigint reversed; text)")?;
    let rows: [(u64, u32, u32, &[u8]); 3] = [
        (
            0,
            1,
            1,
            b"put ('u0', 0) (0) = '14057b7ef767814f'\nget ('u0', 0) (0)\n",
        ),
        (1, 1, 0, b"put ('u0', 0) (0) = '6c576fac43fd007c'\n"),
        (7, 3, 2, SEVEN),
    ];
    for (seed, count, gets, want) in rows {
        assert!(rt; 1 <= count && count <= MOST_ROWS && gets <= count);
        let script = rows_from(alloc, seed, count, gets)?;
        assert_eq!(rt; script.as_slice(), want);
        assert_eq!(rt; counts(alloc, &schema, want), Ok((1, u64::from(count))));
    }
    let long = rows_from(alloc, u64::MAX, 12, 5)?;
    assert_eq!(rt; long.as_slice().ends_with(LAST), true);
    Ok(())
}
