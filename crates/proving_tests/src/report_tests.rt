//! The texts of reports and statuses, as a user sees them.

use base::condition::ConditionKind;
use base::lists::{Bytes, Calls};
use base::name::Name;
use base::rule::Rule;
use certificate_text::prover::answer::Answer;
use report::outside::memory_sink::VecSink;
use report::report::{
    ConditionRecord, ConditionVerdict, FunctionRecord, FunctionVerdict, ParameterValue, Report,
};
use report::report_text::report_lines;
use report::status::{Device, LimitKind, Refusal, Status};
use report::status_text::{files_limit_line, limit_line, refusal_line, source_fault_line};
use report::text::{Lines, push_hexadecimal};
use report::writing::write_lines;
use std::alloc::Global;
use std::panic::Expect;
use std::process::Abort;

fn condition(
    kind: ConditionKind,
    line: u32,
    verdict: ConditionVerdict,
    values: Vec<ParameterValue>,
) -> ConditionRecord {
    ConditionRecord {
        kind,
        file: 0,
        line,
        check_line: None,
        verdict,
        answer: Answer::WideNumeral(1 << 127),
        values,
    }
}

fn name_of(rt: &impl Abort, alloc: Global, text: &[u8]) -> Name {
    Name::from_slice(alloc, text).expect(rt, "memory")
}

fn value(rt: &impl Abort, alloc: Global, name: &[u8], number: i128) -> ParameterValue {
    ParameterValue {
        name: name_of(rt, alloc, name),
        number,
    }
}

// Values of parameters, one below 0 and the greatest one.
fn values(rt: &impl Abort, alloc: Global) -> Vec<ParameterValue> {
    let mut made = Vec::new(alloc);
    made.push(value(rt, alloc, b"x", -3)).expect(rt, "memory");
    made.push(value(rt, alloc, b"y", i128::MAX))
        .expect(rt, "memory");
    made
}

fn conditions(rt: &impl Abort, alloc: Global) -> Vec<ConditionRecord> {
    let mut made = Vec::new(alloc);
    made.push(condition(
        ConditionKind::Ensures,
        5,
        ConditionVerdict::Proved,
        Vec::new(alloc),
    ))
    .expect(rt, "memory");
    made.push(condition(
        ConditionKind::AbortsIf,
        4,
        ConditionVerdict::Open,
        values(rt, alloc),
    ))
    .expect(rt, "memory");
    let mut spent = condition(
        ConditionKind::Aborts,
        2,
        ConditionVerdict::Budget(20_000),
        Vec::new(alloc),
    );
    spent.check_line = Some(7);
    made.push(spent).expect(rt, "memory");
    made
}

fn function(
    rt: &impl Abort,
    alloc: Global,
    address: u128,
    name: &[u8],
    verdict: FunctionVerdict,
    conditions: Vec<ConditionRecord>,
) -> FunctionRecord {
    FunctionRecord {
        address,
        module_name: name_of(rt, alloc, b"m"),
        name: name_of(rt, alloc, name),
        verdict,
        conditions,
    }
}

fn report(rt: &impl Abort, alloc: Global) -> Report {
    let mut functions = Vec::new(alloc);
    functions
        .push(function(
            rt,
            alloc,
            1,
            b"f",
            FunctionVerdict::Unknown,
            conditions(rt, alloc),
        ))
        .expect(rt, "memory");
    functions
        .push(function(
            rt,
            alloc,
            0xcafe,
            b"g",
            FunctionVerdict::Proved,
            Vec::new(alloc),
        ))
        .expect(rt, "memory");
    let mut files = Vec::new(alloc);
    files
        .push(name_of(rt, alloc, b"a.move"))
        .expect(rt, "memory");
    Report { files, functions }
}

const REPORT: &[u8] =
    b"0x1::m::f: unknown\n  ensures a.move:5: proved\n  aborts_if a.move:4: open\n    x = -3\n    y = 170141183460469231731687303715884105727\n  aborts a.move:2 at 7: budget 20000\n0xcafe::m::g: proved\nproved 1 of 2\n";

// How many bytes of the report a sink of this room takes, whose writes with these numbers fail.
fn writes(rt: &impl Abort, alloc: Global, lines: &Lines, fails: &[u64], room: usize, taken: usize) {
    let calls = Calls::from_slice(alloc, fails).expect(rt, "memory");
    let mut sink = VecSink::new(alloc, room, calls).expect(rt, "memory");
    let written = write_lines(&mut sink, lines);
    assert_eq!(rt; written.is_ok(), taken == REPORT.len(), "room {room}");
    assert!(rt; taken <= REPORT.len());
    assert_eq!(rt; sink.bytes(), &REPORT[..taken]);
}

#[test]
fn reports_are_written_whole_or_up_to_a_fault(rt: HostRuntime) {
    let lines = report_lines(rt.alloc(), &report(&rt, rt.alloc())).expect(&rt, "memory");
    let whole = REPORT.len();
    writes(&rt, rt.alloc(), &lines, &[], 1000, whole);
    writes(&rt, rt.alloc(), &lines, &[], whole, whole);
    writes(&rt, rt.alloc(), &lines, &[], 30, 30);
    writes(&rt, rt.alloc(), &lines, &[1], 1000, 0);
    writes(&rt, rt.alloc(), &lines, &[2], 1000, 19);
}

#[test]
fn statuses_have_their_codes(rt: HostRuntime) {
    let refusal = Refusal {
        rule: Rule::NotBuilt,
        file: 0,
        line: 1,
        marker: None,
    };
    for (code, status) in [
        (0, Status::AllProved),
        (1, Status::NotAllProved),
        (2, Status::Refused(refusal)),
        (3, Status::Fault(Device::Sink)),
        (4, Status::BadWords),
        (5, Status::Limit(LimitKind::Bytes, 1_048_577)),
        (6, Status::NoMemory),
    ] {
        assert_eq!(rt; status.code(), code);
    }
}

fn refuses(
    rt: &impl Abort,
    alloc: Global,
    rule: Rule,
    line: u32,
    marker: Option<Name>,
    text: &[u8],
) {
    let file = name_of(rt, alloc, b"a.move");
    let refusal = Refusal {
        rule,
        file: 0,
        line,
        marker,
    };
    let refused = refusal_line(alloc, &file, &refusal).expect(rt, "memory");
    assert_eq!(rt; refused.as_slice(), text);
}

#[test]
fn refusals_have_a_line(rt: HostRuntime) {
    let wide = Some(name_of(&rt, rt.alloc(), b"1u256"));
    refuses(
        &rt,
        rt.alloc(),
        Rule::BadToken,
        1,
        None,
        b"refused 1 BadToken a.move:1\n",
    );
    refuses(
        &rt,
        rt.alloc(),
        Rule::Grammar,
        20,
        None,
        b"refused 2 Grammar a.move:20\n",
    );
    refuses(
        &rt,
        rt.alloc(),
        Rule::LeftOut,
        3,
        wide,
        b"refused 3 LeftOut 1u256 a.move:3\n",
    );
    refuses(
        &rt,
        rt.alloc(),
        Rule::NotBuilt,
        1,
        None,
        b"refused 18 NotBuilt a.move:1\n",
    );
}

#[test]
fn rules_on_types_have_a_line(rt: HostRuntime) {
    let alloc = rt.alloc();
    let rows: [(Rule, &[u8]); 6] = [
        (Rule::NoTyping, b"refused 9 NoTyping a.move:3\n"),
        (Rule::Ambiguous, b"refused 10 Ambiguous a.move:3\n"),
        (Rule::Ability, b"refused 11 Ability a.move:3\n"),
        (Rule::Acquires, b"refused 12 Acquires a.move:3\n"),
        (Rule::Unassigned, b"refused 13 Unassigned a.move:3\n"),
        (Rule::Undropped, b"refused 14 Undropped a.move:3\n"),
    ];
    for (rule, text) in rows {
        refuses(&rt, alloc, rule, 3, None, text);
    }
}

#[test]
fn faults_and_limits_have_a_line(rt: HostRuntime) {
    let alloc = rt.alloc();
    let file = name_of(&rt, alloc, b"a.move");
    let files = files_limit_line(alloc, 65).expect(&rt, "memory");
    assert_eq!(rt; files.as_slice(), b"limit files 65\n".as_slice());
    let fault = source_fault_line(alloc, &file).expect(&rt, "memory");
    assert_eq!(rt; fault.as_slice(), b"fault source a.move\n".as_slice());
    let limit = limit_line(alloc, &file, LimitKind::Nesting).expect(&rt, "memory");
    assert_eq!(rt; limit.as_slice(), b"limit nesting a.move\n".as_slice());
}

#[test]
fn addresses_are_hexadecimal(rt: HostRuntime) {
    let rows: [(u128, &[u8]); 4] = [
        (0, b"0"),
        (16, b"10"),
        (0xdead_beef, b"deadbeef"),
        (u128::MAX, b"ffffffffffffffffffffffffffffffff"),
    ];
    for (number, text) in rows {
        let mut digits = Bytes::new(rt.alloc());
        push_hexadecimal(&mut digits, number).expect(&rt, "memory");
        assert_eq!(rt; digits.as_slice(), text);
    }
}
