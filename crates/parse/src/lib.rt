// The unit's header, and the check that bytes are a unit.
#![tactic(auto)]

ghost use Rattle.std.specs.Prelude.{◌≡◌, cond, suc, ◌+◌, ◌*◌, ◌/◌, ◌^◌, ◌≤◌, ◌<◌, eqb, length};
ghost use Rattle.words.specs.Le.{u32_at};
ghost use Rattle.words.specs.Lists.{every, lowest_below};
ghost use Rattle.unit.specs.Size.{header_size, metadata_size, constant_size, case_size, line_size};
ghost use Rattle.unit.specs.Entry.{metadata_at, good_metadata, is_wide_select, type_at, good_type, good_constant, case_at, good_case, good_line};
ghost use Rattle.unit.specs.Layout.{header_of, sections_follow, good_counts, good_entries, has_sections, lines_rise, wide_select, layout_of};
ghost use Rattle.unit.specs.laws.UnitLaws.{Sections};

use unit::refusal::{Reason, Refusal};
use unit::section::Section;
use unit::{Counts, Header, Metadata, Offsets, SelectCase, entry, field, kind, section, size};
use words::le;

// What the sweep over the entries finds: is each as "Entries" says, and the lowest metadata entry that is a select of too many
// cases, or the number of entries, which is what the definition `lowest_below` gives where there is none.
#[derive(Clone, Copy)]
struct Entries {
    good: bool,
    wide: usize,
}

#[tactic(auto, unfolding(unit::specs::Layout::header_of))]
fn counts(unit: &[u8]) -> Counts
    requires { header_size ≤ length unit.now }
    ensures { result ≡ (header_of unit.now).counts }
{
    Counts {
        instructions: section::word(unit, field::INSTRUCTIONS),
        metadata: section::word(unit, field::METADATA),
        locals: section::word(unit, field::LOCALS),
        types: section::word(unit, field::TYPES),
        defer: section::word(unit, field::DEFER),
        constants: section::word(unit, field::CONSTANTS),
        functions: section::word(unit, field::FUNCTIONS),
        externs: section::word(unit, field::EXTERNS),
        cases: section::word(unit, field::CASES),
        lines: section::word(unit, field::LINES),
    }
}

#[tactic(auto, unfolding(unit::specs::Layout::header_of))]
fn offsets(unit: &[u8]) -> Offsets
    requires { header_size ≤ length unit.now }
    ensures { result ≡ (header_of unit.now).offsets }
{
    Offsets {
        code: section::word(unit, field::CODE_AT),
        metadata: section::word(unit, field::METADATA_AT),
        types: section::word(unit, field::TYPES_AT),
        constants: section::word(unit, field::CONSTANTS_AT),
        functions: section::word(unit, field::FUNCTIONS_AT),
        externs: section::word(unit, field::EXTERNS_AT),
        cases: section::word(unit, field::CASES_AT),
        lines: section::word(unit, field::LINES_AT),
    }
}

pub fn header(unit: &[u8]) -> Header
    requires { header_size ≤ length unit.now }
    ensures { result ≡ header_of unit.now }
{
    let counts = counts(unit);
    let offsets = offsets(unit);
    Header { counts, offsets }
}

// Does the section `next` start at the byte past the section `s`?
fn meets(unit: &[u8], s: Section, next: Section) -> bool
    requires { header_size ≤ length unit.now }
    ensures { result ≡ eqb (u32_at unit.now next.offset) (u32_at unit.now s.offset + s.size * u32_at unit.now s.count) }
{
    section::word(unit, next.offset) == section::past(unit, s)
}

// The tests are cheap, so that all are made.
fn sections_follow(unit: &[u8]) -> bool
    requires { header_size ≤ length unit.now }
    ensures { result ≡ sections_follow (header_of unit.now) (length unit.now) }
{
    (section::word(unit, section::CODE.offset) == size::HEADER)
        & meets(unit, section::CODE, section::METADATA)
        & meets(unit, section::METADATA, section::TYPES)
        & meets(unit, section::TYPES, section::CONSTANTS)
        & meets(unit, section::CONSTANTS, section::FUNCTIONS)
        & meets(unit, section::FUNCTIONS, section::EXTERNS)
        & meets(unit, section::EXTERNS, section::CASES)
        & meets(unit, section::CASES, section::LINES)
        & (unit.len() == section::past(unit, section::LINES))
}

#[tactic(auto, unfolding(unit::specs::Layout::good_counts, unit::specs::Layout::header_of))]
fn good_counts(unit: &[u8]) -> bool
    requires { header_size ≤ length unit.now }
    ensures { result ≡ good_counts (header_of unit.now) }
{
    (section::word(unit, field::LOCALS) <= size::MAX_LOCALS)
        & (section::word(unit, field::DEFER) <= 1)
}

// A kind of 0 to 15, an ok flag, and a select's cases within the section of cases.
#[tactic(auto, unfolding(unit::specs::Entry::good_metadata))]
fn good_metadata(d: Metadata, cases: usize) -> bool
    ensures { result ≡ good_metadata cases d }
{
    if d.kind > kind::LOOP_END {
        return false;
    }
    if d.ok > 1 {
        return false;
    }
    if d.kind == kind::SELECT_EXEC_LAYOUT {
        (d.first as usize) + (d.second as usize) <= cases
    } else {
        true
    }
}

// A select of more cases than the limit.
#[tactic(auto, unfolding(unit::specs::Entry::is_wide_select))]
fn is_wide_select(d: Metadata) -> bool
    ensures { result ≡ is_wide_select d }
{
    (d.kind == kind::SELECT_EXEC_LAYOUT) & (d.second > size::MAX_SELECT_CASES)
}

// The lowest number up to k that passes, or the next, where `found` is the lowest below k, or k.
fn lowest(found: usize, k: usize, passes: bool) -> usize
    requires { k < 2 ^ 63 }
    ensures { result ≡ cond (eqb found k) (cond passes k (suc k)) found }
{
    if found != k {
        return found;
    }
    if passes {
        return k;
    }
    k + 1
}

// One sweep finds both. It ends at the section's end alone, so that both are told of all entries.
fn sweep_metadata(section: &[u8], cases: usize) -> Entries
    ensures { (result.good ≡ every (length section.now / metadata_size) (λ k. good_metadata cases (metadata_at section.now k))) × (result.wide ≡ lowest_below (length section.now / metadata_size) (λ k. is_wide_select (metadata_at section.now k))) }
{
    let n = section.len() / size::METADATA;
    let mut good = true;
    let mut wide = 0;
    for k in 0..n {
        let d = entry::metadata(section, k);
        good &= good_metadata(d, cases);
        wide = lowest(wide, k, is_wide_select(d));
    }
    Entries { good, wide }
}

// The loop ends at the section's end alone, so that the processor tests many types at once.
fn every_type(section: &[u8]) -> bool
    ensures { result ≡ every (length section.now) (λ k. good_type (type_at section.now k)) }
{
    let mut good = true;
    for it in section {
        good &= *it <= kind::FLOAT_SLOT;
    }
    good
}

// A kind of 0 to 4, and a Bool of 0 or 1.
#[tactic(auto, unfolding(unit::specs::Entry::good_constant))]
fn good_constant(section: &[u8], k: usize) -> bool
    requires { constant_size * k + constant_size ≤ length section.now }
    ensures { result ≡ good_constant section.now k }
{
    let at = size::CONSTANT * k;
    if section[at] > kind::STRING {
        return false;
    }
    if section[at] == kind::BOOL {
        le::read_u64(section, at + 8) <= 1
    } else {
        true
    }
}

fn every_constant(section: &[u8]) -> bool
    ensures { result ≡ every (length section.now / constant_size) (λ k. good_constant section.now k) }
{
    let n = section.len() / size::CONSTANT;
    (0..n).all(|k| good_constant(section, k))
}

#[tactic(auto, unfolding(unit::specs::Entry::good_case))]
fn good_case(x: SelectCase) -> bool
    ensures { result ≡ good_case x }
{
    (x.kind <= kind::RECEIVE) & (x.ok <= 1)
}

fn every_case(section: &[u8]) -> bool
    ensures { result ≡ every (length section.now / case_size) (λ k. good_case (case_at section.now k)) }
{
    let n = section.len() / size::CASE;
    (0..n).all(|k| good_case(entry::select_case(section, k)))
}

fn sweep(unit: &[u8]) -> Entries
    requires { Sections (header_of unit.now) (length unit.now) }
    ensures { (result.good ≡ good_entries unit.now) × (result.wide ≡ wide_select unit.now) }
{
    let metadata = sweep_metadata(
        section::part(unit, section::METADATA),
        section::word(unit, field::CASES),
    );
    let good = metadata.good
        & every_type(section::part(unit, section::TYPES))
        & every_constant(section::part(unit, section::CONSTANTS))
        & every_case(section::part(unit, section::CASES));
    Entries {
        good,
        wide: metadata.wide,
    }
}

// Is the place of the k-th of l lines below that of the next, or below n where it is the last?
fn good_line(section: &[u8], k: usize, l: usize, n: usize) -> bool
    requires { (line_size * k + line_size ≤ length section.now) × (l ≡ length section.now / line_size) }
    ensures { result ≡ good_line n section.now k }
{
    let place = entry::line(section, k).place as usize;
    if k + 1 < l {
        place < entry::line(section, k + 1).place as usize
    } else {
        place < n
    }
}

fn every_line(section: &[u8], n: usize) -> bool
    ensures { result ≡ every (length section.now / line_size) (λ k. good_line n section.now k) }
{
    let l = section.len() / size::LINE;
    (0..l).all(|k| good_line(section, k, l, n))
}

fn lines_rise(unit: &[u8]) -> bool
    requires { Sections (header_of unit.now) (length unit.now) }
    ensures { result ≡ lines_rise unit.now }
{
    let n = section::word(unit, field::INSTRUCTIONS);
    every_line(section::part(unit, section::LINES), n)
}

#[tactic(auto, unfolding(unit::specs::Layout::has_sections))]
fn has_sections(unit: &[u8]) -> bool
    ensures { result ≡ has_sections unit.now }
{
    if unit.len() < size::HEADER {
        return false;
    }
    sections_follow(unit) & good_counts(unit)
}

// The header of a unit, or the refusal of its bytes: 1 or 11 at place 0, or 13 at the lowest select of too many cases.
pub fn check(unit: &[u8]) -> Result<Header, Refusal>
    ensures { result ≡ layout_of unit.now }
{
    if !has_sections(unit) {
        return Err(Reason::NotUnit.at(0));
    }
    let entries = sweep(unit);
    if !entries.good {
        return Err(Reason::NotUnit.at(0));
    }
    if !lines_rise(unit) {
        return Err(Reason::LinePlaces.at(0));
    }
    let wide = entries.wide;
    if wide < section::word(unit, field::METADATA) {
        return Err(Reason::TooManyCases.at(wide as u32));
    }
    Ok(header(unit))
}
