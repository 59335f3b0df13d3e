// Runs every row of 01's table through plan, each refusal, and lists with a floor, and writes for each what was handed in,
// what came back, and the buffer, whose 30 numbers are all 7 beforehand.
#![tactic(auto)]

use answers::Reply;
use fraction::Pace;
use rules::{ReportList, Roll};
use std::io;

// A list with its terms.
fn list<'a>(
    arrivals: &'a [u32],
    deadlines: &'a [u32],
    operations: &'a [u32],
    terms: Roll,
) -> ReportList<'a> {
    ReportList {
        arrivals,
        deadlines,
        operations,
        terms,
    }
}

// A list with the terms of most rows: the reference 0, and P/Q = 1/1.
fn even<'a>(arrivals: &'a [u32], deadlines: &'a [u32], operations: &'a [u32]) -> ReportList<'a> {
    list(arrivals, deadlines, operations, Roll::new(0, 1, 1))
}

// A list under its name: its numbers, or how many they are where they are many.
fn show_list(rt: &impl Print, name: &str, xs: &[u32]) -> io::Result<()> {
    print!(rt; "{name}:")?;
    if 30 < xs.len() {
        return println!(rt; " {} numbers", xs.len());
    }
    for x in xs {
        print!(rt; " {x}")?;
    }
    println!(rt;)
}

// What is handed in: the lists and the terms, and R and T where there is a floor.
fn show_input(rt: &impl Print, list: ReportList<'_>, floor: Option<Pace>) -> io::Result<()> {
    show_list(rt, "arrivals", list.arrivals)?;
    show_list(rt, "deadlines", list.deadlines)?;
    show_list(rt, "operations", list.operations)?;
    let terms = list.terms;
    println!(rt;
        "reference, P, Q: {} {} {}",
        terms.reference, terms.p, terms.q
    )?;
    match floor {
        Some(slowest) => println!(rt; "R, T: {} {}", slowest.ticks, slowest.operations),
        None => Ok(()),
    }
}

// One row of the table: what is handed in, what comes back, and the buffer. It has 30 numbers, more than any row needs.
fn run(rt: &impl Print, list: ReportList<'_>, floor: Option<Pace>) -> io::Result<()> {
    show_input(rt, list, floor)?;
    let mut buffer = [7u32; 30];
    let reply = Reply::from(planner::plan(list, floor, &mut buffer));
    println!(rt;
        "number, place, blocks: {} {} {}",
        reply.number, reply.place, reply.blocks
    )?;
    show_list(rt, "buffer", &buffer)?;
    println!(rt;)
}

// The starred rows, in 01's order.
fn starred(rt: &impl Print) -> io::Result<()> {
    for list in [
        even(&[], &[], &[]),
        even(&[0], &[10], &[4]),
        even(&[0], &[4], &[4]),
        even(&[0], &[4], &[5]),
        even(&[0, 0], &[4, 12], &[2, 2]),
        even(&[0, 6], &[10, 10], &[2, 2]),
        even(&[0, 10], &[4, 14], &[2, 2]),
        even(&[0, 4], &[4, 8], &[2, 2]),
        even(&[0, 0], &[10, 5], &[3, 2]),
        even(&[0, 0, 9, 9], &[6, 20, 20, 12], &[2, 2, 1, 1]),
        even(&[0, 0, 12], &[4, 20, 16], &[2, 2, 2]),
    ] {
        run(rt, list, None)?;
    }
    Ok(())
}

// The others, and the list with a wrapped reference.
fn others(rt: &impl Print) -> io::Result<()> {
    for list in [
        list(&[0], &[2], &[3], Roll::new(0, 2, 3)),
        list(&[0], &[2], &[4], Roll::new(0, 2, 3)),
        even(&[0], &[2147483647], &[1]),
        even(&[0], &[2147483648], &[1]),
        even(&[5, 4], &[20, 20], &[2, 2]),
        even(&[5, 4], &[20, 20], &[2, 0]),
        list(
            &[4294967295, 3],
            &[9, 14],
            &[2, 2],
            Roll::new(4294967290, 1, 1),
        ),
    ] {
        run(rt, list, None)?;
    }
    Ok(())
}

// Refusals that the table does not show: 1, 2, 3, 4, 6, and the edges of 5 and 9.
fn refused(rt: &impl Print) -> io::Result<()> {
    for list in [
        even(&[0, 0], &[4], &[2, 2]),
        even(&[0], &[4], &[2, 2]),
        list(&[0; 1025], &[0; 1025], &[0; 1025], Roll::new(0, 0, 0)),
        list(&[0; 1024], &[0; 1024], &[0; 1024], Roll::new(0, 0, 0)),
        list(&[0; 7], &[9; 7], &[1; 7], Roll::new(0, 0, 0)),
        list(&[0], &[4], &[0], Roll::new(0, 0, 1)),
        list(&[0], &[4], &[0], Roll::new(0, 1, 0)),
        list(&[0], &[4], &[0], Roll::new(0, 65536, 1)),
        list(&[0], &[4], &[0], Roll::new(0, 1, 65536)),
        even(&[0, 0], &[90000, 90000], &[65535, 65536]),
        list(&[3, 2], &[9, 9], &[1, 1], Roll::new(3, 1, 1)),
        even(&[0, 8], &[9, 8], &[1, 1]),
        even(&[0, 8], &[9, 3], &[1, 1]),
    ] {
        run(rt, list, None)?;
    }
    Ok(())
}

// One report from 0 to 10 with P/Q and the floor R/T (02, W2): the row is as without one; both sides of 16 and of 17; and
// their order.
fn floors(rt: &impl Print) -> io::Result<()> {
    for (operations, p, q, r, t) in [
        (4, 1, 1, 2, 1),
        (4, 1, 1, 65535, 65535),
        (4, 1, 1, 65534, 65535),
        (4, 1, 1, 0, 1),
        (4, 1, 1, 1, 0),
        (4, 1, 1, 65536, 65536),
        (4, 0, 1, 0, 0),
        (0, 1, 1, 1, 2),
        (0, 1, 1, 2, 2),
        (11, 1, 1, 1, 1),
    ] {
        run(
            rt,
            list(&[0], &[10], &[operations], Roll::new(0, p, q)),
            Some(Pace {
                ticks: r,
                operations: t,
            }),
        )?;
    }
    Ok(())
}

fn main(rt: HostRuntime) -> io::Result<()> {
    starred(&rt)?;
    others(&rt)?;
    refused(&rt)?;
    floors(&rt)
}
