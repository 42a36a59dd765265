//! 120 random projects in twelve groups, and a project at the limits.
use crate::drawn::{Drawn, SMALL};
use crate::largest::largest;
use crate::shown::Shown;
use std::alloc::Global;
use std::process::Abort;
use strategy::Kind;

/// For each group and kind: the nodes, and the sum over all that was shown, by the independent
/// program.
const TABLE: [[(u64, u32); 5]; 12] = [
    [
        (383, 3_730_078_364),
        (58, 2_134_704_012),
        (58, 58_018_417),
        (58, 3_575_275_685),
        (202, 2_446_380_652),
    ],
    [
        (556, 1_546_381_470),
        (39, 1_846_940_510),
        (39, 1_846_940_510),
        (39, 1_846_940_510),
        (127, 2_810_952_717),
    ],
    [
        (803, 1_009_388_320),
        (44, 697_803_055),
        (44, 697_803_055),
        (44, 1_692_564_073),
        (148, 850_644_099),
    ],
    [
        (852, 4_153_223_769),
        (48, 87_069_226),
        (48, 87_069_226),
        (48, 1_604_095_914),
        (149, 1_124_425_567),
    ],
    [
        (512, 1_977_235_576),
        (42, 2_635_533_312),
        (42, 2_635_533_312),
        (42, 71_896_547),
        (129, 902_086_481),
    ],
    [
        (185, 1_391_316_904),
        (36, 1_246_909_481),
        (36, 1_246_909_481),
        (36, 1_246_909_481),
        (133, 2_575_720_945),
    ],
    [
        (200, 965_437_773),
        (35, 456_754_039),
        (35, 456_754_039),
        (35, 3_363_166_197),
        (95, 1_875_534_232),
    ],
    [
        (689, 2_359_483_062),
        (49, 2_400_249_909),
        (49, 2_400_249_909),
        (49, 2_400_249_909),
        (171, 2_039_598_938),
    ],
    [
        (636, 807_172_778),
        (54, 1_794_625_876),
        (54, 1_794_625_876),
        (54, 3_719_988_343),
        (178, 445_010_909),
    ],
    [
        (385, 1_268_517_015),
        (50, 4_026_536_663),
        (50, 4_026_536_663),
        (50, 3_973_468_276),
        (163, 2_698_643_387),
    ],
    [
        (354, 129_208_209),
        (37, 4_052_219_451),
        (37, 4_052_219_451),
        (37, 3_884_335_035),
        (130, 595_390_324),
    ],
    [
        (1_070, 2_961_222_850),
        (41, 1_415_497_763),
        (41, 155_806_243),
        (41, 815_833_830),
        (102, 3_686_793_558),
    ],
];

/// For the project at the limits, after at most 205 nodes.
const LARGEST: [(u64, u32); 5] = [
    (202, 3_513_922_436),
    (202, 3_513_922_436),
    (202, 3_513_922_436),
    (202, 3_513_922_436),
    (202, 3_513_930_124),
];

/// Runs the five kinds on ten projects. Sampling has the seeds 0 to 9 and four passes, the tree at
/// most 400 nodes; the rules run to their ends.
fn group(rt: &impl Abort, alloc: Global, drawn: &mut Drawn) -> [Shown; 5] {
    let mut shown = [Shown { nodes: 0, sum: 0 }; 5];
    for seed in 0..10u32 {
        let project = drawn.project(rt, alloc, SMALL);
        let passes = (project.size() as u32).saturating_mul(4);
        let kinds = [
            (Kind::Tree, 400),
            (Kind::RuleLft, 400),
            (Kind::RuleMts, 400),
            (Kind::RuleSpt, 400),
            (Kind::Sample(u64::from(seed)), passes),
        ];
        for (one, (kind, most)) in shown.iter_mut().zip(kinds) {
            one.add_kind(rt, alloc, &project, kind, most);
        }
    }
    shown
}

fn compare(rt: &impl Abort, shown: &[Shown; 5], line: &[(u64, u32); 5]) {
    for (one, (nodes, sum)) in shown.iter().zip(line) {
        assert!(rt; one.nodes == *nodes && one.sum == *sum);
    }
}

#[test]
fn random_projects_node_by_node(rt: HostRuntime) {
    let mut drawn = Drawn::new(7);
    for line in TABLE.iter() {
        let shown = group(&rt, rt.alloc(), &mut drawn);
        compare(&rt, &shown, line);
    }
}

#[test]
fn a_project_at_the_limits(rt: HostRuntime) {
    let project = largest(rt.alloc()).expect(&rt, "no memory for a project");
    let project = project.expect(&rt, "within the limits");
    let mut shown = [Shown { nodes: 0, sum: 0 }; 5];
    let kinds = [
        Kind::Tree,
        Kind::RuleLft,
        Kind::RuleMts,
        Kind::RuleSpt,
        Kind::Sample(0),
    ];
    for (one, kind) in shown.iter_mut().zip(kinds) {
        one.add_kind(&rt, rt.alloc(), &project, kind, 205);
    }
    compare(&rt, &shown, &LARGEST);
}
