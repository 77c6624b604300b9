// Examples of the voting rules and of the books, run.
#![tactic(auto)]

#[cfg(test)]
mod tests {
    use books::book::{Book, give_number};
    use entries::entry_book::EntryBook;
    use protocol::note::Note;
    use protocol::refusal::Refusal;
    use std::test::Fail;
    use vote::heads::Heads;
    use vote::rule::VotingRule;
    use vote::weights::Weights;

    #[test]
    fn votes(rt: HostRuntime) -> Result<(), Fail> {
        let five = Heads::new(5)?;
        assert!(rt; five.has_vote(7) && !five.has_vote(3) && !five.has_vote(63));
        let heavy = Weights::new(&[3, 1, 1])?;
        assert!(rt; heavy.has_vote(1) && !heavy.has_vote(6));
        Ok(())
    }

    #[test]
    fn rules_that_are_refused(rt: HostRuntime) {
        assert!(rt; matches!(Heads::new(9), Err(Refusal::RollSize)));
        assert!(rt; matches!(Heads::new(4_294_967_295), Err(Refusal::RollSize)));
        assert!(rt; matches!(Weights::new(&[]), Err(Refusal::RollSize)));
        assert!(rt; matches!(Weights::new(&[0, 0]), Err(Refusal::WeightRange)));
        assert!(rt; matches!(Weights::new(&[101]), Err(Refusal::WeightRange)));
    }

    #[test]
    fn largest_duty(rt: HostRuntime) -> Result<(), Fail> {
        let mut book = EntryBook::new(rt.alloc())?;
        let number = 9_999_999;
        let most = 1_000_000_000;
        for (a, c, d) in [(1, most, 10_000), (2, most, 0), (3, most, 0), (4, 0, 0)] {
            let note = Note { a, b: number, c, d };
            assert_eq!(rt; give_number(&mut book, note), 0);
        }
        for (b, c) in [(10_000_000, most), (1, most + 1)] {
            let note = Note { a: 2, b, c, d: 0 };
            assert_eq!(rt; give_number(&mut book, note), 1);
        }
        let Some(entry) = book.find(number) else {
            return Err(Fail::new("the entry is gone"));
        };
        assert_eq!(rt; entry.duty, Some(3_000_000_000));
        assert_eq!(rt; book.entries(), [entry].as_slice());
        Ok(())
    }
}
