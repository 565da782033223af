// The limits of the documents, section by section in document 01's order, those of document 02, d after granting, then those of document 02, a and g: for each condition (but the 16 MiB of a ROM, for which there is no room here) a call that just misses it and one that just meets it. One line for each call: what it is given,
// the number that came, and what came beside it. A line in brackets names what the numbers of the lines after it are.
// Stays: the lines are calls with numbers; of an array of sixteen cases in a for the check did not find what each case requires, and the lines that require nothing are no plainer apart from the rest.
#![tactic(auto)]

fn main() {
    start_limits::lines();
    place_limits::lines();
    osc_limits::lines();
    edition_limits::lines();
    record_limits::lines();
    rom_limits::lines();
    writer_limits::lines();
}
