// A station's turn by its token, run.
#![tactic(auto)]

#[cfg(test)]
mod tests {
    use books::book::Book;
    use entries::entry_book::EntryBook;
    use lines::line_wire::LineWire;
    use protocol::frame::Frame;
    use protocol::note::Note;
    use protocol::refusal::Refusal;
    use station::station::Station;
    use std::test::Fail;
    use vote::heads::Heads;
    use wires::wire::Wire;

    // Opens turn t, says until none is due, and passes: how many notes were said.
    fn whole_turn<W: Wire<Frame>>(
        station: &mut Station<EntryBook>,
        wire: &mut W,
        rule: &Heads,
        t: u32,
    ) -> Result<u32, Refusal> {
        let mut token = station.open(wire, rule, t)?;
        let mut said = 0u32;
        for _ in 0..9 {
            let (back, more) = station.say(wire, token);
            token = back;
            if more {
                said = said.saturating_add(1);
            }
        }
        station.pass(wire, token);
        Ok(said)
    }

    #[test]
    fn a_turn_by_its_token(rt: HostRuntime) -> Result<(), Fail> {
        let heap = rt.alloc();
        let places = vec![in heap; Frame::IDLE; 64]?;
        let mut wire = LineWire::new(2, places).map_err(|rejected| rejected.refusal)?;
        let rule = Heads::new(2)?;
        let mut station = Station::new(0, 2, EntryBook::new(heap)?, heap)?;
        let note = Note {
            a: 1,
            b: 70,
            c: 500_000,
            d: 1_200,
        };
        assert!(rt; station.note(note).is_ok());
        // turn 2 is the other station's, and turn 1 posts the entry and a heartbeat
        assert!(rt;
            matches!(
                whole_turn(&mut station, &mut wire, &rule, 2),
                Err(Refusal::WrongTurn)
            )
        );
        assert!(rt; matches!(whole_turn(&mut station, &mut wire, &rule, 1), Ok(1)));
        assert!(rt; matches!(wire.count(1), Ok(2)));
        assert!(rt; station.len() == 1 && station.firm() == 0 && station.waiting() == 0);
        Ok(())
    }
}
