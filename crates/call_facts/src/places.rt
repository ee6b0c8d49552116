//! The library's own places in guest memory.

ghost use Rattle.call_facts.specs.Places.{OwnPlacesAreReadable};

use guest_map::{places_lie_in_regions, regions_are_blank};
use legal_run::{calls_keep, entry_laws, run_laws};
use nd_mem::{fault_laws, look_up_laws, write_laws};
use pe_image::image_lies_in_its_size;
use run_facts::{adapters_are_given, lists_keep_their_lengths, runs_go_on};

/// Where handlers answer, what answers a request, and the status of a packet in its slot may be read in
/// every state of a run.
pub fn own_places_are_readable()
    ensures { OwnPlacesAreReadable }
{
    image_lies_in_its_size();
    look_up_laws();
    write_laws();
    fault_laws();
    regions_are_blank();
    places_lie_in_regions();
    calls_keep();
    run_laws();
    entry_laws();
    runs_go_on();
    lists_keep_their_lengths();
    adapters_are_given();
}
