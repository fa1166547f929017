use crate::decks::fault_of;
use std::test::Fail;

/// The lines of a step of one site, from line 8 of the file on, and its fault.
const IN_STEPS: &[(&str, Option<(u32, u8)>)] = &[
    (
        "pre_expon x\nactiv_eng 1\nvariant v\npre_expon 1\nend_variant\n",
        Some((8, 11)),
    ),
    (
        "activ_eng 1\nvariant v\npre_expon x\nend_variant\npre_expon 1\n",
        Some((10, 11)),
    ),
    (
        "activ_eng 1\nvariant v\nend_variant\npre_expon -1\n",
        Some((11, 13)),
    ),
    (
        "activ_eng 1\nvariant v\npre_expon 1\nend_variant\nvariant w\npre_expon x\nend_variant\n",
        Some((13, 11)),
    ),
    ("pre_expon 1\nactiv_eng 1\npe_ratio 0\n", Some((10, 13))),
    (
        "pre_expon 1\nactiv_eng 1\nvariant v\npe_ratio x\nend_variant\n",
        Some((11, 11)),
    ),
    (
        "pre_expon 1\nactiv_eng 1\nsite_types t t\nvariant v\nsite_types t\nend_variant\n",
        Some((10, 15)),
    ),
    (
        "pre_expon 1\nactiv_eng 1\nvariant v\nsite_types t t\nend_variant\nsite_types t\n",
        Some((11, 15)),
    ),
    (
        "pre_expon 1\nvariant v\nactiv_eng 1\nprox_factor 2\nend_variant\nprox_factor x\n",
        Some((11, 13)),
    ),
    (
        "pre_expon 1\nprox_factor x\nvariant v\nactiv_eng 1\nprox_factor 2\nend_variant\n",
        Some((9, 11)),
    ),
    (
        "pre_expon 1\nactiv_eng x\nvariant v\nactiv_eng 1\nend_variant\n",
        Some((9, 11)),
    ),
    (
        "pre_expon 1\nactiv_eng 1\npe_ratio -1\nvariant v\npe_ratio 1\nend_variant\n",
        Some((10, 13)),
    ),
    (
        "pre_expon 1\nactiv_eng 1\nvariant v\nend_variant\nvariant v\nend_variant\n",
        None,
    ),
];

#[test]
fn faults_of_variants(rt: HostRuntime) -> Result<(), Fail> {
    let alloc = rt.alloc();
    for (lines, fault) in IN_STEPS {
        let text = format!(in alloc;
            "mechanism\nstep a\nsites 1\ninitial\n1 * 1\nfinal\n1 X 1\n{lines}end_step\nend_mechanism\n"
        )?;
        assert_eq!(rt; fault_of(alloc, text.as_bytes())?, *fault, "{text}");
    }
    Ok(())
}
