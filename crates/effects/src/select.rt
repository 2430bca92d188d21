// The ranges of SelectExec's cases.
ghost use Rattle.std.specs.Prelude.{◌≡◌, ◌+◌, ◌*◌, ◌/◌, ◌≤◌, ◌<◌, length, get_or};
ghost use Rattle.unit.specs.Size.{case_size};
ghost use Rattle.effects.specs.Effects.{case_reads, case_writes};
ghost use Rattle.effects.specs.laws.Form.{empty_range};

use crate::Range;
use unit::{Metadata, entry, kind};

// Of each case the queue, then what a send case sends.
pub fn case_read(k: usize, m: Metadata, cases: &[u8]) -> Range
    requires { (k < 2 * m.second) × (m.first + m.second ≤ length cases.now / case_size) }
    ensures { result ≡ get_or (case_reads cases.now m.first m.second) k empty_range }
{
    let x = entry::select_case(cases, (m.first as usize) + k / 2);
    if k % 2 == 0 {
        return Range {
            start: x.queue as usize,
            count: 1,
        };
    }
    if x.kind == kind::SEND {
        return Range {
            start: x.slot as usize,
            count: x.elements as usize,
        };
    }
    Range {
        start: x.slot as usize,
        count: 0,
    }
}

// Of each case what a receive case gives, and the slot of has_ok after it.
pub fn case_write(k: usize, m: Metadata, cases: &[u8]) -> Range
    requires { (k < m.second) × (m.first + m.second ≤ length cases.now / case_size) }
    ensures { result ≡ get_or (case_writes cases.now m.first m.second) k empty_range }
{
    let x = entry::select_case(cases, (m.first as usize) + k);
    if x.kind == kind::SEND {
        return Range {
            start: x.slot as usize,
            count: 0,
        };
    }
    Range {
        start: x.slot as usize,
        count: (x.elements as usize) + (x.ok as usize),
    }
}
