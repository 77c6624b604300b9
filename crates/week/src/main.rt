// The week of entry 70 at three stations, from Monday's opening to Friday's filing.
#![tactic(auto)]

mod office;

use office::Office;
use protocol::note::Note;

// the sea shipment of this week, and an entry of last week whose freight is not known yet
const ENTRY: u32 = 70;

const OLDER: u32 = 68;

// A note, whose kind is the number that the rules give it.
const fn note(kind: u32, number: u32, c: u32, d: u32) -> Note {
    Note {
        a: kind,
        b: number,
        c,
        d,
    }
}

const fn open(number: u32, price: u32, rate: u32) -> Note {
    note(1, number, price, rate)
}

const fn freight(number: u32, amount: u32) -> Note {
    note(2, number, amount, 0)
}

const fn insurance(number: u32, amount: u32) -> Note {
    note(3, number, amount, 0)
}

const fn close(number: u32) -> Note {
    note(4, number, 0, 0)
}

// From Monday's opening to the return of station 2.
fn to_wednesday(rt: &HostRuntime, office: &mut Office) -> anyhow::Result<()> {
    println!(rt; "Monday")?;
    office.note(rt, 0, open(ENTRY, 500_000, 1_200))?;
    office.turns(rt, 3)?;
    office.show(rt)?;
    println!(rt; "Tuesday")?;
    office.ask(rt, 0, close(ENTRY))?;
    office.note(rt, 2, freight(ENTRY, 80_000))?;
    office.turns(rt, 3)?;
    office.show(rt)?;
    println!(rt; "Wednesday")?;
    office.stop(rt, 2)?;
    office.note(rt, 1, insurance(ENTRY, 2_000))?;
    office.turns(rt, 2)?;
    office.enter(rt, 2)?;
    office.turns(rt, 2)?;
    office.show(rt)
}

// From the question about the freight to Friday's filing.
fn to_friday(rt: &HostRuntime, office: &mut Office) -> anyhow::Result<()> {
    println!(rt; "Thursday")?;
    office.turns(rt, 2)?;
    office.ask(rt, 2, freight(ENTRY, 80_000))?;
    office.file(rt, 1, ENTRY)?;
    office.note(rt, 0, close(ENTRY))?;
    office.turns(rt, 3)?;
    office.show(rt)?;
    println!(rt; "Friday")?;
    office.file(rt, 1, ENTRY)?;
    office.show(rt)
}

fn main(rt: HostRuntime) -> anyhow::Result<()> {
    println!(rt; "The week of entry {ENTRY}, a sea shipment, at three stations")?;
    let mut office = Office::new(&rt, open(OLDER, 125_000, 450))?;
    to_wednesday(&rt, &mut office)?;
    to_friday(&rt, &mut office)
}
