use kmc_run::{run_never_falls, runs_go_to_their_stop, samples_are_due, writes_its_samples};

#[test]
fn laws_of_runs() {
    runs_go_to_their_stop();
    run_never_falls();
    writes_its_samples();
    samples_are_due();
}
