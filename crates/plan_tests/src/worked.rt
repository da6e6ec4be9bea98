//! Plans of worked lists and of long runs.
use crate::plans::{Run, assert_plan, in_a_row};
use pef_reloc::{Base, Instr};
use test_data::lists::{Listed, S0, S1, S2, fixups};

/// Lists of a few fixups, the least length, and the program if it is the only one of this length.
const WORKED: &[(Listed, u64, &[Instr])] = &[
    (&[], 0, &[]),
    (&[(0, S0), (4, S1), (8, Base::Import(0))], 2, &[]),
    (
        &[(0, S0), (4, S1), (12, S0), (16, S1)],
        1,
        &[Instr::TVector12(2)],
    ),
    (
        &[(4, S1)],
        1,
        &[Instr::BySectDWithSkip { skip: 1, count: 1 }],
    ),
    (
        &[(5116, S1)],
        2,
        &[
            Instr::IncrPosition(4096),
            Instr::BySectDWithSkip {
                skip: 255,
                count: 1,
            },
        ],
    ),
    (&[(5000, S1)], 2, &[]),
    (&[(5117, S1)], 3, &[]),
    (&[(0, S1), (8, S0)], 2, &[]),
    (&[(0, S1), (8, S1), (12, S0)], 3, &[]),
    (
        &[(0, Base::Import(511)), (4, Base::Import(512))],
        2,
        &[Instr::SmByImport(511), Instr::ImportRun(1)],
    ),
    (&[(0, Base::Import(600))], 2, &[Instr::LgByImport(600)]),
    (&[(0, S2), (4, S2), (8, S2)], 2, &[]),
    (&[(0, S2), (4, S2)], 2, &[]),
    (&[(0, Base::Section(15))], 1, &[Instr::SmBySection(15)]),
];

#[test]
fn worked_lists(rt: HostRuntime) {
    for row in WORKED {
        let (listed, length, program) = *row;
        let fixups = fixups(rt.alloc(), listed).expect(&rt, "memory");
        assert_plan(&rt, rt.alloc(), &fixups, length, program);
    }
}

/// Runs, and the least length. A skip to the first of 64 words adds only 63.
const LONG_RUNS: &[(Run, u64)] = &[
    ((64, 4, 4, S1), 2),
    ((512, 0, 4, S1), 1),
    ((513, 0, 4, S1), 2),
    ((16_384, 0, 4, S1), 17),
    ((65_536, 0, 4, S1), 65),
    ((2_048, 0, 4, S0), 2),
    ((1_024, 0, 8, S1), 2),
];

#[test]
fn long_runs(rt: HostRuntime) {
    for row in LONG_RUNS {
        let (run, length) = *row;
        let fixups = in_a_row(&rt, rt.alloc(), run);
        assert_plan(&rt, rt.alloc(), &fixups, length, &[]);
    }
}
