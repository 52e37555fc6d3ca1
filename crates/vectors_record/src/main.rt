// What reading, writing and judging say of the stored records. records.bin has, for each, a byte for its length and then its bytes. For
// each record a line: `no` with the refusal's number, place and column, or the values of its parts and whether writing them gave the
// record back, with zeros past it. Then the first record's leg and the second's continuation are written with parts changed, a line each.
// Then, for these two records and for each of their 132 columns, what judging says of every byte in that column: the runs of bytes with
// one answer, as FROM-TO:NUMBER:COLUMN, 0:0 for accepted.
// The records and what is to be printed are made by the program in reference/.
#![tactic(auto)]

ghost use Rattle.std.specs.Prelude.{◌<◌, ◌≤◌, ◌+◌, length};

use fields::continuation::Continuation;
use fields::head::{Cycle, Fix, Head, Route, Tail};
use fields::primary::{CentreFix, Leg, Navaid};
use fields::quantities::{Altitude, Course, Distance};
use fields::text::Text;
use fields::units::{
    Feet, FlightLevel, HundredthsOfDegree, Knots, Rnp, TenthsOfDegree, TenthsOfMile,
    TenthsOfMinute, ThousandthsOfMile, WholeDegrees,
};
use leg::terminator::Terminator;
use parts::Parts;
use refusals::{Refusal, Verdict};
use std::io;
use std::io::{BufWriter, Write};
use vectors::Said;

// The end of the case whose length stands at `at`, within the set.
fn case_end(set: &[u8], at: usize) -> usize
    ensures { (at < length set.now → at + 1 ≤ result) × (result ≤ length set.now) }
{
    let n = slices::byte_at(set, at) as usize;
    if at < set.len() {
        if n < set.len() - at {
            return at + 1 + n;
        }
    }
    set.len()
}

// A number that may be absent: its digits behind a tab, or a minus.
fn print_number(to: &mut impl Write, v: Option<u32>) -> io::Result<()> {
    match v {
        None => write!(to, "\t-"),
        Some(n) => write!(to, "\t{n}"),
    }
}

fn print_course(to: &mut impl Write, v: Option<Course>) -> io::Result<()> {
    match v {
        None => write!(to, "\t-"),
        Some(Course::Magnetic(n)) => write!(to, "\tm{}", n.0),
        Some(Course::True(n)) => write!(to, "\tt{}", n.0),
    }
}

fn print_distance(to: &mut impl Write, v: Option<Distance>) -> io::Result<()> {
    match v {
        None => write!(to, "\t-"),
        Some(Distance::Miles(n)) => write!(to, "\td{}", n.0),
        Some(Distance::Minutes(n)) => write!(to, "\tt{}", n.0),
    }
}

fn print_altitude(to: &mut impl Write, v: Option<Altitude>) -> io::Result<()> {
    match v {
        None => write!(to, "\t-"),
        Some(Altitude::Feet(n)) => write!(to, "\tf{}", n.0),
        Some(Altitude::Below(n)) => write!(to, "\tb{}", n.0),
        Some(Altitude::Level(n)) => write!(to, "\tl{}", n.0),
    }
}

// The file's record number and the cycle, and whether what was written is what was read.
fn print_end(to: &mut impl Write, tail: Tail, case: &[u8], written: [u8; 140]) -> io::Result<()> {
    write!(
        to,
        "\t{}\t{}\t{}",
        tail.record_number, tail.cycle.year, tail.cycle.number
    )?;
    let same = slices::same(case, 0, &written, 0, 133);
    let past = slices::same(&written, 133, &[0u8; 7], 0, 7);
    if same & past {
        writeln!(to, "\tsame")
    } else {
        writeln!(to, "\tdiffers")
    }
}

fn print_leg(to: &mut impl Write, leg: Leg, case: &[u8]) -> io::Result<()> {
    let mut name = [0u8; 132];
    leg.terminator.put(&mut name);
    write!(to, "leg\t")?;
    to.write_all(&name[47..49])?;
    write!(to, "\t{}", leg.head.sequence)?;
    print_number(to, leg.rnp.map(|v| v.0))?;
    print_number(to, leg.arc_radius.map(|v| v.0))?;
    print_number(to, leg.theta.map(|v| v.0))?;
    print_number(to, leg.rho.map(|v| v.0))?;
    print_course(to, leg.course)?;
    print_distance(to, leg.distance)?;
    print_altitude(to, leg.altitude)?;
    print_altitude(to, leg.second_altitude)?;
    print_number(to, leg.transition_altitude.map(|v| v.0))?;
    print_number(to, leg.speed.map(|v| v.0))?;
    print_number(to, leg.vertical_angle.map(|v| v.0))?;
    let mut written = [255u8; 140];
    // What is printed is what stands in the buffer, refused or not.
    let _ = parts::write_leg(leg, &mut written);
    print_end(to, leg.tail, case, written)
}

fn print_continuation(
    to: &mut impl Write,
    continuation: Continuation,
    content: [u8; 83],
    case: &[u8],
) -> io::Result<()> {
    write!(to, "continuation\t{}\t", continuation.head.sequence)?;
    to.write_all(&[continuation.number])?;
    let mut written = [255u8; 140];
    let _ = parts::write_continuation(continuation, content, &mut written);
    print_end(to, continuation.tail, case, written)
}

fn print_case(to: &mut impl Write, case: &[u8]) -> io::Result<()> {
    match parts::read(case) {
        Ok(Parts::Leg(leg)) => print_leg(to, leg, case),
        Ok(Parts::Continuation(continuation, content)) => {
            print_continuation(to, continuation, content, case)
        }
        Err(refusal) => writeln!(to, "no\t{refusal}"),
    }
}

// Where a case begins is told by the one before it, so that no range has their places.
fn print_cases(to: &mut impl Write, set: &[u8]) -> io::Result<()> {
    let mut at = 0;
    while at < set.len() {
        let from = at + 1;
        let end = case_end(set, at);
        print_case(to, &set[from..end])?;
        at = end;
    }
    Ok(())
}

// What writing gives.
fn print_written(to: &mut impl Write, k: usize, verdict: Verdict) -> io::Result<()> {
    writeln!(to, "write\t{k}\t{}", Said(verdict))
}

fn try_leg(to: &mut impl Write, k: usize, leg: Leg) -> io::Result<()> {
    let mut out = [255u8; 133];
    print_written(to, k, parts::write_leg(leg, &mut out))
}

fn try_continuation(
    to: &mut impl Write,
    k: usize,
    continuation: Continuation,
    content: [u8; 83],
) -> io::Result<()> {
    let mut out = [255u8; 133];
    print_written(
        to,
        k,
        parts::write_continuation(continuation, content, &mut out),
    )
}

fn with_sequence(head: Head, sequence: u32) -> Head {
    Head { sequence, ..head }
}

fn with_fix(leg: Leg, fix: Fix) -> Leg {
    Leg {
        head: Head { fix, ..leg.head },
        ..leg
    }
}

fn with_cycle(tail: Tail, year: u32, number: u32) -> Tail {
    Tail {
        cycle: Cycle { year, number },
        ..tail
    }
}

// The first record's leg, written with each change.
fn print_number_writes(to: &mut impl Write, leg: Leg) -> io::Result<()> {
    try_leg(to, 1, leg)?;
    try_leg(
        to,
        2,
        Leg {
            head: with_sequence(leg.head, 0),
            ..leg
        },
    )?;
    try_leg(
        to,
        3,
        Leg {
            head: with_sequence(leg.head, 1000),
            ..leg
        },
    )?;
    let rnp = Some(Rnp(1000));
    try_leg(to, 4, Leg { rnp, ..leg })?;
    let arc_radius = Some(ThousandthsOfMile(1000000));
    try_leg(to, 5, Leg { arc_radius, ..leg })?;
    let theta = Some(TenthsOfDegree(3601));
    try_leg(to, 6, Leg { theta, ..leg })?;
    let rho = Some(TenthsOfMile(10000));
    try_leg(to, 7, Leg { rho, ..leg })?;
    let course = Some(Course::Magnetic(TenthsOfDegree(3601)));
    try_leg(to, 8, Leg { course, ..leg })?;
    let course = Some(Course::True(WholeDegrees(361)));
    try_leg(to, 9, Leg { course, ..leg })?;
    let course = Some(Course::True(WholeDegrees(360)));
    try_leg(to, 10, Leg { course, ..leg })
}

fn print_distance_writes(to: &mut impl Write, leg: Leg) -> io::Result<()> {
    let distance = Some(Distance::Miles(TenthsOfMile(10000)));
    try_leg(to, 11, Leg { distance, ..leg })?;
    let distance = Some(Distance::Minutes(TenthsOfMinute(10)));
    try_leg(to, 12, Leg { distance, ..leg })?;
    let holding = Leg {
        terminator: Terminator::Hm,
        ..leg
    };
    try_leg(
        to,
        13,
        Leg {
            distance,
            ..holding
        },
    )?;
    let distance = Some(Distance::Minutes(TenthsOfMinute(1000)));
    try_leg(
        to,
        14,
        Leg {
            distance,
            ..holding
        },
    )
}

// Another altitude.
fn try_altitude(to: &mut impl Write, k: usize, leg: Leg, altitude: Altitude) -> io::Result<()> {
    try_leg(
        to,
        k,
        Leg {
            altitude: Some(altitude),
            ..leg
        },
    )
}

fn print_altitude_writes(to: &mut impl Write, leg: Leg) -> io::Result<()> {
    try_altitude(to, 15, leg, Altitude::Feet(Feet(100000)))?;
    try_altitude(to, 16, leg, Altitude::Below(Feet(0)))?;
    try_altitude(to, 17, leg, Altitude::Below(Feet(10000)))?;
    try_altitude(to, 18, leg, Altitude::Below(Feet(120)))?;
    try_altitude(to, 19, leg, Altitude::Level(FlightLevel(1000)))
}

fn print_height_writes(to: &mut impl Write, leg: Leg) -> io::Result<()> {
    let second_altitude = Some(Altitude::Level(FlightLevel(1000)));
    try_leg(
        to,
        20,
        Leg {
            second_altitude,
            ..leg
        },
    )?;
    let transition_altitude = Some(Feet(100000));
    try_leg(
        to,
        21,
        Leg {
            transition_altitude,
            ..leg
        },
    )?;
    let speed = Some(Knots(1000));
    try_leg(to, 22, Leg { speed, ..leg })?;
    let vertical_angle = Some(HundredthsOfDegree(1000));
    try_leg(
        to,
        23,
        Leg {
            vertical_angle,
            ..leg
        },
    )
}

// Another cycle.
fn try_cycle(to: &mut impl Write, k: usize, leg: Leg, year: u32, number: u32) -> io::Result<()> {
    try_leg(
        to,
        k,
        Leg {
            tail: with_cycle(leg.tail, year, number),
            ..leg
        },
    )
}

fn print_end_writes(to: &mut impl Write, leg: Leg) -> io::Result<()> {
    let cycle = leg.tail.cycle;
    let tail = Tail {
        record_number: 100000,
        ..leg.tail
    };
    try_leg(to, 24, Leg { tail, ..leg })?;
    try_cycle(to, 25, leg, cycle.year, 15)?;
    try_cycle(to, 26, leg, cycle.year, 0)?;
    try_cycle(to, 27, leg, 100, cycle.number)?;
    let route = Route {
        airport: Text(b' ', b'K', b'S', b'E', b' ', b' '),
        ..leg.head.route
    };
    let head = Head { route, ..leg.head };
    try_leg(to, 28, Leg { head, ..leg })
}

fn print_companion_writes(to: &mut impl Write, leg: Leg) -> io::Result<()> {
    let fix = leg.head.fix;
    let identifier = None;
    try_leg(to, 29, with_fix(leg, Fix { identifier, ..fix }))?;
    let icao = None;
    try_leg(to, 30, with_fix(leg, Fix { icao, ..fix }))?;
    let section = None;
    try_leg(to, 31, with_fix(leg, Fix { section, ..fix }))?;
    let navaid = Navaid {
        identifier: None,
        ..leg.navaid
    };
    try_leg(to, 32, Leg { navaid, ..leg })?;
    let centre_fix = CentreFix {
        section: None,
        ..leg.centre_fix
    };
    try_leg(to, 33, Leg { centre_fix, ..leg })
}

fn print_needed_writes(to: &mut impl Write, leg: Leg) -> io::Result<()> {
    let theta = None;
    try_leg(to, 34, Leg { theta, ..leg })?;
    let course = None;
    try_leg(to, 35, Leg { course, ..leg })?;
    let distance = None;
    try_leg(to, 36, Leg { distance, ..leg })?;
    let fix = Fix {
        identifier: None,
        icao: None,
        section: None,
        ..leg.head.fix
    };
    try_leg(to, 37, with_fix(leg, fix))
}

fn print_both_altitudes_writes(to: &mut impl Write, leg: Leg) -> io::Result<()> {
    let one = Leg {
        altitude_description: b'B',
        second_altitude: None,
        ..leg
    };
    try_leg(to, 38, one)?;
    let none = Leg {
        altitude: None,
        ..one
    };
    try_leg(to, 39, none)
}

// Faults of three stages at once.
fn print_faults_write(to: &mut impl Write, leg: Leg) -> io::Result<()> {
    let faults = Leg {
        theta: Some(TenthsOfDegree(3601)),
        course: None,
        ..leg
    };
    let fix = Fix {
        identifier: None,
        ..leg.head.fix
    };
    try_leg(to, 40, with_fix(faults, fix))
}

fn print_number_write(to: &mut impl Write, leg: Leg) -> io::Result<()> {
    let continuation = b'2';
    try_leg(
        to,
        41,
        Leg {
            continuation,
            ..leg
        },
    )
}

// A fourteenth cycle, in two years that have it and in one that does not.
fn print_fourteenth_writes(to: &mut impl Write, leg: Leg) -> io::Result<()> {
    try_cycle(to, 42, leg, 20, 14)?;
    try_cycle(to, 43, leg, 98, 14)?;
    try_cycle(to, 44, leg, 21, 14)
}

// A number of three digits for a cycle: its byte 0 is not in the first column of the field.
fn print_long_cycle_write(to: &mut impl Write, leg: Leg) -> io::Result<()> {
    try_cycle(to, 45, leg, leg.tail.cycle.year, 100)
}

fn print_leg_writes(to: &mut impl Write, leg: Leg) -> io::Result<()> {
    print_number_writes(to, leg)?;
    print_distance_writes(to, leg)?;
    print_altitude_writes(to, leg)?;
    print_height_writes(to, leg)?;
    print_end_writes(to, leg)?;
    print_companion_writes(to, leg)?;
    print_needed_writes(to, leg)?;
    print_both_altitudes_writes(to, leg)?;
    print_faults_write(to, leg)?;
    print_number_write(to, leg)?;
    print_fourteenth_writes(to, leg)?;
    print_long_cycle_write(to, leg)
}

// The second record's parts, written with each change.
fn print_continuation_writes(
    to: &mut impl Write,
    base: Continuation,
    bytes: [u8; 83],
) -> io::Result<()> {
    try_continuation(to, 46, base, bytes)?;
    let head = with_sequence(base.head, 0);
    try_continuation(to, 47, Continuation { head, ..base }, bytes)?;
    let mut content = bytes;
    content[41] = 31;
    try_continuation(to, 48, base, content)?;
    let number = b'1';
    try_continuation(to, 49, Continuation { number, ..base }, bytes)?;
    let tail = with_cycle(base.tail, 20, 14);
    try_continuation(to, 50, Continuation { tail, ..base }, bytes)?;
    let tail = with_cycle(base.tail, 21, 14);
    try_continuation(to, 51, Continuation { tail, ..base }, bytes)
}

// Nothing is written of what is refused.
fn print_writes(to: &mut impl Write, case: &[u8]) -> io::Result<()> {
    match parts::read(case) {
        Ok(Parts::Leg(leg)) => print_leg_writes(to, leg),
        Ok(Parts::Continuation(continuation, content)) => {
            print_continuation_writes(to, continuation, content)
        }
        Err(_) => Ok(()),
    }
}

// The same of the case whose length stands at `at`.
fn print_writes_at(to: &mut impl Write, set: &[u8], at: usize) -> io::Result<()> {
    let end = case_end(set, at);
    if at < end {
        print_writes(to, &set[at + 1..end])?;
    }
    Ok(())
}

fn print_run(to: &mut impl Write, first: usize, last: usize, said: Refusal) -> io::Result<()> {
    write!(to, "\t{first}-{last}:{}:{}", said.number, said.column)
}

// Every byte in one column of a record.
fn print_column(to: &mut impl Write, base: [u8; 132], column: usize) -> io::Result<()>
    requires { column < 132 }
{
    let mut rec = base;
    rec[column] = 0;
    let mut from = 0;
    let mut said = refusals::stated(leg::judge(&rec, 0));
    for b in 1..256usize {
        rec[column] = b as u8;
        let next = refusals::stated(leg::judge(&rec, 0));
        if next != said {
            print_run(to, from, b - 1, said)?;
            from = b;
            said = next;
        }
    }
    print_run(to, from, 255, said)
}

// Every byte in every column of the record that stands in the set from `from` on.
fn print_sweep(to: &mut impl Write, set: &[u8], from: usize, name: &str) -> io::Result<()> {
    let mut base = [0u8; 132];
    slices::copy(set, from, &mut base, 0, 132);
    for column in 0..132usize {
        write!(to, "sweep\t{name}\t{}", column + 1)?;
        print_column(to, base, column)?;
        writeln!(to)?;
    }
    Ok(())
}

fn print_all(to: &mut impl Write, set: &[u8]) -> io::Result<()> {
    print_cases(to, set)?;
    let second = case_end(set, 0);
    print_writes_at(to, set, 0)?;
    print_writes_at(to, set, second)?;
    print_sweep(to, set, 1, "leg")?;
    if second < set.len() {
        print_sweep(to, set, second + 1, "continuation")?;
    }
    Ok(())
}

fn main(rt: HostRuntime) -> io::Result<()> {
    let mut space = [0u8; 65536];
    let n = vectors::stored(&rt, "records.bin", &mut space)?;
    let mut to = BufWriter::new(rt.alloc(), io::writer(&rt))?;
    print_all(&mut to, &space[..n])?;
    to.flush()
}
