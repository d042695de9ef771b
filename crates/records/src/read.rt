// Each record's reader, and its answer as a line.
use super::say;
use book::{FrequencyFields, RequirementFields, Three, UnitFields};
use rules::{Direction, Kind};

pub(crate) fn contents(bytes: &[u8]) {
    match book::contents::read_contents(bytes) {
        Ok(c) => {
            say::taken();
            say::unsigned(c.units as u64);
            say::unsigned(c.requirements as u64);
            say::end();
        }
        Err(r) => say::refused(r),
    }
}

pub(crate) fn settings(bytes: &[u8]) {
    match book::settings::read_settings(bytes) {
        Ok(s) => {
            say::taken();
            say::unsigned(s.smoothing as u64);
            say::unsigned(s.limit as u64);
            say::unsigned(s.percent as u64);
            say::unsigned(s.interval as u64);
            say::end();
        }
        Err(r) => say::refused(r),
    }
}

fn wide(x: i32) -> i64 {
    x as i64
}

fn three(d: Three) {
    say::signed(d.payment);
    say::signed(d.used);
    say::signed(d.unused);
}

fn frequency_fields(f: FrequencyFields) {
    say::taken();
    say::flag(f.separation);
    say::signed(wide(f.before));
    say::unsigned(f.generation as u64);
    let raise = f.raise;
    three(raise);
    let lower = f.lower;
    three(lower);
}

pub(crate) fn frequency(bytes: &[u8], position: u32) {
    match book::frequency::read_frequency(bytes, (position % 256) as u8) {
        Ok(f) => {
            frequency_fields(f);
            say::end();
        }
        Err(r) => say::refused(r),
    }
}

fn kind(k: Kind) {
    match k {
        Kind::Generation => say::unsigned(0),
        Kind::Load => say::unsigned(1),
    }
}

fn unit_fields(u: UnitFields) {
    say::taken();
    say::unsigned(u.number as u64);
    say::unsigned(u.region as u64);
    let k = u.kind;
    kind(k);
    say::signed(wide(u.start));
    say::signed(wide(u.end));
    let raise = u.raise;
    three(raise);
    let lower = u.lower;
    three(lower);
    say::flag(u.good);
    say::unsigned(u.group as u64);
}

pub(crate) fn unit(bytes: &[u8], least: u32) {
    match book::unit::read_unit(bytes, least) {
        Ok(u) => {
            unit_fields(u);
            say::end();
        }
        Err(r) => say::refused(r),
    }
}

fn direction(d: Direction) {
    match d {
        Direction::Raise => say::unsigned(0),
        Direction::Lower => say::unsigned(1),
    }
}

fn requirement_fields(q: RequirementFields) {
    say::taken();
    say::unsigned(q.number as u64);
    say::unsigned(q.set as u64);
    let d = q.direction;
    direction(d);
    say::unsigned(q.price as u64);
    say::unsigned(q.cost);
    say::unsigned(q.enabled as u64);
    say::unsigned(q.used as u64);
    say::end();
}

pub(crate) fn requirement(bytes: &[u8], least: u32, last: bool) {
    match book::requirement::read_requirement(bytes, least, last) {
        Ok(q) => requirement_fields(q),
        Err(r) => say::refused(r),
    }
}
