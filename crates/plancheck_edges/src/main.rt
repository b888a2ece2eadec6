// What `plancheck` prints of the plans that are its arguments, by the same calls, and a last line with its status. The plans are those of
// examples/bad, and a clean one.
#![tactic(auto)]

ghost use Rattle.std.specs.Prelude.{◌≤◌, ◌<◌, IfOk};

use findings::codes::FINDING_WORDS;
use findings_render::FULL;
use inputs::read_full;
use std::env::FillError;
use std::rt::{Env, Files};
use std::{fs, io};

const MOST_FINDINGS: usize = 100;

const NOTHING_FOUND: u32 = 0;

const FOUND: u32 = 1;

const FAILED: u32 = 2;

// How much memory a plan, and what is rendered of it, may take.
const PLAN_ROOM: usize = 65536;

// How many bytes the name of a plan may have.
const NAME_ROOM: usize = 4096;

// The first bytes of a memory.
fn front(t: &[u8], n: usize) -> &[u8] {
    if t.len() <= n {
        return t;
    }
    &t[..n]
}

fn print_finding(rt: &impl Print, finding: &[u32], source: &[u8], name: &[u8]) -> io::Result<()> {
    let mut out = [0u8; PLAN_ROOM];
    let needed = findings_render::render(finding, source, name, FULL, false, &mut out);
    rt.write_all(front(&out, needed))
}

// The words of a finding.
fn nth(findings: &[u32], i: usize) -> &[u32]
    requires { i < 100 }
{
    let from = i * FINDING_WORDS;
    let to = from + FINDING_WORDS;
    if findings.len() < to {
        return findings;
    }
    &findings[from..to]
}

fn print_findings(
    rt: &impl Print,
    findings: &[u32],
    told: usize,
    source: &[u8],
    name: &[u8],
) -> io::Result<()>
    requires { told ≤ 100 }
{
    for i in 0..told {
        print_finding(rt, nth(findings, i), source, name)?;
    }
    Ok(())
}

fn print_summary(
    rt: &impl Print,
    name: &[u8],
    found: usize,
    errors: usize,
    told: usize,
) -> io::Result<()> {
    let mut out = [0u8; PLAN_ROOM];
    let needed = findings_render::summary(name, found, errors, told, FULL, &mut out);
    rt.write_all(front(&out, needed))
}

fn told_of(found: usize) -> usize
    ensures { result ≤ 100 }
{
    if found < MOST_FINDINGS {
        return found;
    }
    MOST_FINDINGS
}

// The findings of a plan, and the status.
fn check(rt: &impl Print, source: &[u8], name: &[u8]) -> io::Result<u32>
    ensures { IfOk result (λ status. status < 3) }
{
    let mut rows = [0u32; 16384];
    let mut findings = [0u32; 700];
    match findings::find(source, &mut rows, &mut findings) {
        Ok(counted) => {
            let told = told_of(counted.findings);
            print_findings(rt, &findings, told, source, name)?;
            print_summary(rt, name, counted.findings, counted.errors, told)?;
            if counted.findings == 0 {
                return Ok(NOTHING_FOUND);
            }
            Ok(FOUND)
        }
        Err(_) => Ok(FAILED),
    }
}

fn check_file(rt: &(impl Files + Print + Eprint), name: &str) -> io::Result<u32>
    ensures { IfOk result (λ status. status < 3) }
{
    match fs::open(rt, name) {
        Ok(mut file) => {
            let mut memory = [0u8; PLAN_ROOM];
            let count = read_full(&mut file, &mut memory)?;
            check(rt, front(&memory, count), name.as_bytes())
        }
        Err(e) => {
            eprintln!(rt; "{name}: {e}")?;
            Ok(FAILED)
        }
    }
}

fn check_argument(rt: &(impl Env + Files + Print + Eprint), i: usize) -> io::Result<u32>
    ensures { IfOk result (λ status. status < 3) }
{
    let mut name = [0u8; NAME_ROOM];
    let count = rt.arg(i, &mut name).unwrap_or(0);
    match str::from_utf8(front(&name, count)) {
        Ok(name) => check_file(rt, name),
        Err(e) => {
            eprintln!(rt; "argument {i}: {e}")?;
            Ok(FAILED)
        }
    }
}

// How many arguments there are, the program's name among them.
fn arg_count(rt: &impl Env) -> usize {
    let mut name = [0u8; NAME_ROOM];
    for i in 0..usize::MAX {
        if let Err(FillError::NotPresent) = rt.arg(i, &mut name) {
            return i;
        }
    }
    usize::MAX
}

fn greater(x: u32, y: u32) -> u32
    requires x_bound { x < 3 }
    requires y_bound { y < 3 }
    ensures { result < 3 }
{
    if x < y {
        return y;
    }
    x
}

fn main(rt: HostRuntime) -> io::Result<()> {
    let count = arg_count(&rt);
    let mut status: u32 = NOTHING_FOUND;
    for i in 1..count {
        status = greater(status, check_argument(&rt, i)?);
    }
    println!(rt; "status {status}")
}
