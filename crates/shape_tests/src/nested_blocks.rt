//! Blocks within blocks: the shapes of the files, and faults of form at each of their lines.

use deck_shape::{Block, BlockForm, DeckFault, Keyword, Section, Shape, read_shape};
use kmc_base::FileId;
use std::alloc::{AllocError, Global};
use std::process::Abort;
use std::test::Fail;

/// How many clusters or steps a file has, and how many variants the last of them, or the line and the kind of its
/// fault.
type Outline = Result<(usize, usize), (usize, u8)>;

/// How many variants the last section of a file has.
fn last_variants(shape: &Shape) -> usize {
    match shape.sections.as_slice() {
        [.., last] => last.variants.len(),
        [] => 0,
    }
}

/// The outline of a file.
fn outline(alloc: Global, file: FileId, text: &[u8]) -> Outline {
    if text.len() > 1000 {
        return Err((0, 0));
    }
    match read_shape(alloc, file, text) {
        Ok(shape) => Ok((shape.sections.len(), last_variants(&shape))),
        Err(DeckFault::Fault(fault)) if fault.file == file => {
            Err((fault.line as usize, fault.kind))
        }
        Err(_) => Err((0, 0)),
    }
}

const SIMULATION: &[&str] = &["temperature 1", "pressure 1", "finish"];

const DEFAULT: &[&str] = &[
    "lattice default_choice",
    "rectangular_periodic 1 2 2",
    "end_lattice",
];

const EXPLICIT: &[&str] = &[
    "lattice explicit",
    "n_sites 1",
    "n_site_types 1",
    "site_type_names A",
    "lattice_structure",
    "1 0 0 A 0",
    "end_lattice_structure",
    "end_lattice",
];

const ENERGETICS: &[&str] = &[
    "energetics",
    "cluster C",
    "sites 1",
    "lattice_state",
    "1 A* 1",
    "variant a",
    "cluster_eng 1",
    "end_variant",
    "end_cluster",
    "end_energetics",
];

const MECHANISM: &[&str] = &[
    "mechanism",
    "step S",
    "gas_reacs_prods A -1",
    "sites 1",
    "initial",
    "1 * 1",
    "final",
    "1 A* 1",
    "pre_expon 1",
    "activ_eng 0",
    "end_step",
    "reversible_step R",
    "sites 1",
    "initial",
    "1 * 1",
    "final",
    "1 A* 1",
    "variant a",
    "pre_expon 1",
    "pe_ratio 1",
    "end_variant",
    "activ_eng 0",
    "end_reversible_step",
    "end_mechanism",
];

const STATE: &[&str] = &[
    "initial_state",
    "seed_on_sites A* 1",
    "seed_on_sites B** 2 3",
    "seed_on_sites",
    "end_initial_state",
];

/// The files by their lines, with their outlines.
const FILES: &[(FileId, &[&str], (usize, usize))] = &[
    (FileId::Simulation, SIMULATION, (0, 0)),
    (FileId::Lattice, DEFAULT, (0, 0)),
    (FileId::Lattice, EXPLICIT, (0, 0)),
    (FileId::Energetics, ENERGETICS, (1, 1)),
    (FileId::Mechanism, MECHANISM, (2, 1)),
    (FileId::State, STATE, (0, 0)),
];

/// A text with these lines.
fn text_of(alloc: Global, lines: &[&str]) -> Result<Vec<u8>, AllocError> {
    let mut text = Vec::new(alloc);
    for line in lines {
        text.extend_from_slice(line.as_bytes())?;
        text.push(b'\n')?;
    }
    Ok(text)
}

#[test]
fn whole_files(rt: HostRuntime) -> Result<(), Fail> {
    for (file, lines, want) in FILES {
        let text = text_of(rt.alloc(), *lines)?;
        assert_eq!(rt; outline(rt.alloc(), *file, &text), Ok(*want), "{file:?}");
    }
    Ok(())
}

/// Looks at the fault of a file that ends after each of its lines in turn.
fn look_at_ends(
    rt: &impl Abort,
    alloc: Global,
    file: FileId,
    lines: &[&str],
) -> Result<(), AllocError> {
    for (count, _) in lines.iter().enumerate() {
        let text = text_of(alloc, &lines[..count])?;
        let fault = outline(alloc, file, &text);
        assert_eq!(rt; fault, Err((count.saturating_add(1), 9)), "{file:?}");
    }
    Ok(())
}

#[test]
fn files_that_are_not_closed(rt: HostRuntime) -> Result<(), Fail> {
    for (file, lines, _) in FILES {
        look_at_ends(&rt, rt.alloc(), *file, *lines)?;
    }
    Ok(())
}

/// How many lines of a file come before a line that is put in, the line, and the kind of its fault.
type Case = (usize, &'static str, u8);

const IN_SIMULATION: &[Case] = &[
    (0, "1 2", 3),
    (1, "+1", 3),
    (2, "& &", 3),
    (0, "sites 1", 4),
    (1, "end_step", 4),
    (2, "Finish", 4),
    (0, "override_array_bounds", 5),
    (1, "override_array_bounds 1", 5),
    (2, "override_array_bounds 1 2", 5),
    (0, "pressure", 6),
    (1, "no_restart now", 6),
    (2, "snapshots on event 5 6", 6),
    (2, "finish now", 6),
    (1, "temperature 2", 7),
    (2, "pressure 1", 7),
    (0, "finish", 8),
    (1, "finish", 8),
];

const IN_DEFAULT: &[Case] = &[
    (0, "1", 3),
    (1, "1", 3),
    (0, "rectangular_periodic 1 2 2", 4),
    (1, "triangular_periodic", 5),
    (2, "triangular_periodic 1 2 2", 5),
    (0, "lattice", 6),
    (2, "hexagonal_periodic 1 2 2", 7),
    (1, "end_lattice", 8),
    (0, "lattice rectangular", 10),
];

const IN_EXPLICIT: &[Case] = &[
    (0, "1 2", 3),
    (2, "1 2", 3),
    (7, "1 0 0 A 0", 3),
    (1, "lattice explicit", 4),
    (5, "max_coord 1", 4),
    (6, "end_lattice", 4),
    (7, "repeat_cell 1 1", 4),
    (3, "site_type_names_", 4),
    (6, "end_lattice_structure 1", 6),
    (7, "max_coord 1 2", 6),
    (7, "end_lattice x", 6),
    (2, "n_sites 2", 7),
    (7, "lattice_structure", 7),
    (1, "end_lattice", 8),
    (4, "end_lattice", 8),
];

const IN_ENERGETICS: &[Case] = &[
    (0, "1 A* 1", 3),
    (1, "1 A* 1", 3),
    (2, "1 A* 1", 3),
    (6, "1 A* 1", 3),
    (7, "1 A* 1", 3),
    (8, "1 A* 1", 3),
    (9, "1 A* 1", 3),
    (0, "cluster C", 4),
    (0, "variant a", 4),
    (1, "variant a", 4),
    (1, "energetics", 4),
    (2, "cluster D", 4),
    (2, "end_energetics", 4),
    (2, "end_variant", 4),
    (6, "sites 1", 4),
    (6, "variant b", 4),
    (7, "end_cluster", 4),
    (7, "pre_expon 1", 4),
    (8, "end_variant", 4),
    (9, "end_cluster", 4),
    (9, "cluster_eng 1", 4),
    (2, "angles 1-2-3:60.0", 5),
    (6, "no_mirror_images", 5),
    (8, "absl_orientation 1-2:0.0", 5),
    (0, "energetics 1", 6),
    (1, "cluster", 6),
    (1, "cluster C D", 6),
    (5, "variant", 6),
    (7, "end_variant a", 6),
    (8, "end_cluster C", 6),
    (9, "end_energetics 1", 6),
    (3, "sites 1", 7),
    (7, "cluster_eng 1", 7),
    (8, "lattice_state", 7),
    (2, "end_cluster", 8),
    (3, "end_cluster", 8),
    (4, "end_cluster", 8),
    (5, "end_cluster", 8),
];

const IN_MECHANISM: &[Case] = &[
    (0, "1 * 1", 3),
    (4, "1 * 1", 3),
    (11, "1 * 1", 3),
    (12, "1 * 1", 3),
    (18, "1 * 1", 3),
    (21, "1 * 1", 3),
    (23, "1 * 1", 3),
    (0, "step S", 4),
    (1, "sites 1", 4),
    (3, "reversible_step T", 4),
    (10, "end_reversible_step", 4),
    (11, "variant a", 4),
    (18, "end_step", 4),
    (20, "sites 1", 4),
    (20, "end_reversible_step", 4),
    (22, "end_mechanism", 4),
    (23, "cluster C", 4),
    (2, "angles 1-2-3:60.0", 5),
    (18, "no_mirror_images", 5),
    (22, "absl_orientation 1-2:0.0", 5),
    (0, "mechanism 1", 6),
    (2, "gas_reacs_prods A", 6),
    (10, "prox_factor", 6),
    (11, "step", 6),
    (11, "reversible_step R T", 6),
    (20, "end_variant a", 6),
    (23, "end_mechanism 1", 6),
    (3, "gas_reacs_prods A 1", 7),
    (4, "sites 1", 7),
    (10, "initial", 7),
    (20, "pre_expon 1", 7),
    (22, "sites 1", 7),
    (22, "activ_eng 0", 7),
    (2, "end_step", 8),
    (9, "end_step", 8),
    (17, "end_reversible_step", 8),
    (21, "end_reversible_step", 8),
];

const IN_STATE: &[Case] = &[
    (0, "A* 1", 4),
    (0, "1 2", 3),
    (1, "1 A*", 3),
    (2, "1 A*", 3),
    (4, "& &", 3),
    (0, "seed_on_sites A* 1", 4),
    (1, "initial_state", 4),
    (2, "finish", 4),
    (4, "seed_on_site A* 1", 4),
    (1, "seed_multiple A* 5", 5),
    (4, "seed_multiple", 5),
    (0, "initial_state now", 6),
    (1, "end_initial_state 1", 6),
    (4, "end_initial_state now", 6),
];

/// A text with these lines, and a line put in below so many of them.
fn text_with(
    alloc: Global,
    lines: &[&str],
    above: usize,
    line: &str,
) -> Result<Vec<u8>, AllocError> {
    let mut text = Vec::new(alloc);
    for (index, known) in lines.iter().enumerate() {
        if index == above {
            text.extend_from_slice(line.as_bytes())?;
            text.push(b'\n')?;
        }
        text.extend_from_slice(known.as_bytes())?;
        text.push(b'\n')?;
    }
    Ok(text)
}

/// Looks at the fault of a file with each of these lines put in.
fn look_at_faults(
    rt: &impl Abort,
    alloc: Global,
    file: FileId,
    lines: &[&str],
    cases: &[Case],
) -> Result<(), AllocError> {
    for (above, line, kind) in cases {
        let text = text_with(alloc, lines, *above, *line)?;
        let fault = outline(alloc, file, &text);
        assert_eq!(rt;
            fault,
            Err((above.saturating_add(1), *kind)),
            "{line:?} {above}"
        );
    }
    Ok(())
}

/// The files by their lines, and the lines that are put in.
const FAULTS: &[(FileId, &[&str], &[Case])] = &[
    (FileId::Simulation, SIMULATION, IN_SIMULATION),
    (FileId::Lattice, DEFAULT, IN_DEFAULT),
    (FileId::Lattice, EXPLICIT, IN_EXPLICIT),
    (FileId::Energetics, ENERGETICS, IN_ENERGETICS),
    (FileId::Mechanism, MECHANISM, IN_MECHANISM),
    (FileId::State, STATE, IN_STATE),
];

#[test]
fn faults_at_each_line(rt: HostRuntime) -> Result<(), Fail> {
    for (file, lines, cases) in FAULTS {
        look_at_faults(&rt, rt.alloc(), *file, *lines, *cases)?;
    }
    Ok(())
}

/// The first lines of a file of steps and of one of clusters.
const STEP: &str = "mechanism\nstep S\nsites 1\ninitial\n1 * 1\nfinal\n1 A* 1\n";

const CLUSTER: &str = "energetics\ncluster C\nsites 1\nlattice_state\n1 A* 1\n";

/// Files by how they begin and how they go on, most of them with variants.
const ENDINGS: &[(FileId, &str, &str, Outline)] = &[
    (
        FileId::Mechanism,
        STEP,
        "activ_eng 0\nvariant a\npre_expon 1\nend_variant\nvariant b\npre_expon 2\nend_variant\nend_step\nend_mechanism\n",
        Ok((1, 2)),
    ),
    (
        FileId::Mechanism,
        STEP,
        "activ_eng 0\nvariant a\npre_expon 1\nend_variant\nvariant b\nend_variant\nend_step\nend_mechanism\n",
        Err((14, 8)),
    ),
    (
        FileId::Mechanism,
        STEP,
        "activ_eng 0\nvariant a\nend_variant\nvariant b\npre_expon 2\nend_variant\nend_step\nend_mechanism\n",
        Err((14, 8)),
    ),
    (
        FileId::Mechanism,
        STEP,
        "activ_eng 0\nvariant a\nend_variant\npre_expon 1\nend_step\nend_mechanism\n",
        Ok((1, 1)),
    ),
    (
        FileId::Mechanism,
        STEP,
        "pre_expon 1\nvariant a\nactiv_eng 0\nend_variant\nvariant b\nactiv_eng 0\nsite_types A\nend_variant\nend_step\nstep T\nend_step\n",
        Err((18, 8)),
    ),
    (
        FileId::Mechanism,
        "mechanism\nstep S\nsites 1\nsites 1\n",
        "end_step\nend_mechanism\n",
        Err((4, 7)),
    ),
    (
        FileId::Mechanism,
        "mechanism\n",
        "end_mechanism\n1 2\n",
        Ok((0, 0)),
    ),
    (FileId::Energetics, CLUSTER, "end_cluster\n", Err((6, 8))),
    (
        FileId::Energetics,
        CLUSTER,
        "cluster_eng 1\nvariant a\nend_variant\nend_cluster\nend_energetics\nno_word",
        Ok((1, 1)),
    ),
    (
        FileId::Energetics,
        CLUSTER,
        "variant a\ncluster_eng 1\nend_variant\nvariant b\nend_variant\nend_cluster\n",
        Err((11, 8)),
    ),
    (
        FileId::Energetics,
        CLUSTER,
        "cluster_eng 1\nend_cluster\ncluster C\n\nsites 1\n# no more\n",
        Err((12, 9)),
    ),
    (
        FileId::State,
        "initial_state\n",
        "end_initial_state\n1 2\nno_word\n",
        Ok((0, 0)),
    ),
    (FileId::State, "", "", Err((1, 9))),
];

#[test]
fn ends_of_files(rt: HostRuntime) -> Result<(), Fail> {
    for (file, head, end, want) in ENDINGS {
        let text = format!(in rt.alloc(); "{head}{end}")?;
        assert_eq!(rt;
            outline(rt.alloc(), *file, text.as_bytes()),
            *want,
            "{end:?}"
        );
    }
    Ok(())
}

/// The file of two steps, the second of which has a variant.
const STEPS: &[u8] =
    b"mechanism\nstep S\ngas_reacs_prods A -1\nsites 1\ninitial\n1 * 1\nfinal\n1 A* 1\npre_expon 1\nactiv_eng 0\nend_step\nreversible_step R\nsites 1\ninitial\n1 * 1\nfinal\n1 A* 1\nvariant a\npre_expon 1\npe_ratio 1\nend_variant\nactiv_eng 0\nend_reversible_step\nend_mechanism\n";

/// The form, the name, the lines and the number of words of a block.
type BlockOutline = (BlockForm, &'static [u8], u32, u32, usize);

fn block_outline(block: &Block) -> BlockOutline {
    (
        block.form,
        block.name.bytes(STEPS),
        block.line,
        block.end_line,
        block.items.len(),
    )
}

/// The outline of the block of a section, and that of its last variant.
fn section_outline(section: &Section) -> (BlockOutline, Option<BlockOutline>) {
    (
        block_outline(&section.block),
        section.variants.as_slice().last().map(block_outline),
    )
}

#[test]
fn steps_of_a_file(rt: HostRuntime) -> Result<(), Fail> {
    let shape = read_shape(rt.alloc(), FileId::Mechanism, STEPS)?;
    assert_eq!(rt;
        block_outline(&shape.block),
        (BlockForm::Mechanism, b"".as_slice(), 1, 24, 0)
    );
    let [step, reversible] = shape.sections.as_slice() else {
        return Err("not two steps")?;
    };
    assert_eq!(rt;
        section_outline(step),
        ((BlockForm::Step, b"S".as_slice(), 2, 11, 6), None)
    );
    assert_eq!(rt;
        section_outline(reversible),
        (
            (BlockForm::ReversibleStep, b"R".as_slice(), 12, 23, 4),
            Some((BlockForm::StepVariant, b"a".as_slice(), 18, 21, 2))
        )
    );
    Ok(())
}

/// Whether the last variant of a section has a word.
fn variant_has(section: &Section, keyword: Keyword) -> Option<bool> {
    let variant = section.variants.as_slice().last()?;
    Some(variant.item(STEPS, keyword).is_some())
}

#[test]
fn words_of_a_variant(rt: HostRuntime) -> Result<(), Fail> {
    let shape = read_shape(rt.alloc(), FileId::Mechanism, STEPS)?;
    let last = shape.sections.as_slice().last().ok_or("no step")?;
    assert_eq!(rt; variant_has(last, Keyword::PeRatio), Some(true));
    assert_eq!(rt; variant_has(last, Keyword::ActivEng), Some(false));
    Ok(())
}
