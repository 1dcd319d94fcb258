//! All laws called once, with `Anything` for their type parameters.

use rs_disk::Fault;

/// The claim that holds of every image and every answer.
struct Anything;

impl rs_disk::laws::Claim for Anything {
    ghost use Rattle.std.specs.Prelude.{⊤};

    ghost of = { λ _ _. ⊤ };
}

impl rs_disk::laws::Told for Anything {
    ghost use Rattle.std.specs.Prelude.{⊤};

    ghost told = { ⊤ };
}

#[test]
fn the_laws(_rt: HostRuntime) {
    rs_disk::laws::settled_disk_has_one_image();
    rs_disk::laws::write_unsettles_its_range();
    rs_disk::laws::choices_reach_each_image();
    rs_disk::laws::past_images_stay();
    rs_disk::laws::one_call_leaves();
    rs_disk::laws::worked_images();
    rs_disk::laws::worked_failures();
    rs_disk::laws::runs_leave::<Anything>();
    rs_disk::laws::weaker_claim_is_left::<Anything, Anything>();
    rs_disk::laws::one_call_runs::<(), Fault>();
    rs_disk::laws::runs_join::<Anything, Anything, Anything>();
    rs_disk::laws::fault_is_last::<(), Fault>();
    rs_disk::laws::worked_stops();
    rs_commit::laws::opens_once();
    rs_commit::laws::opens_stays();
    rs_commit::laws::ready_stays();
    rs_commit::laws::entry_opens();
    rs_commit::laws::payloads_read();
    rs_commit::laws::formatted_opens();
    rs_body::laws::beside_each();
    rs_body::laws::fewest_blocks();
    rs_body::laws::outside_none();
    rs_body::laws::outside_goes_on();
    rs_body::laws::outside_less();
    rs_body::laws::outside_rests::<Anything>();
    rs_body::laws::only_goes_on::<Anything, Anything, Anything>();
    rs_body::laws::part_kept();
}
