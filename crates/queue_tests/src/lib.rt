// Tests of the queue with both kinds of entry.
#![tactic(auto)]

#[cfg(test)]
mod tests {
    use fault::{Fault, Kind};
    use queue::{Queue, Ready, Running, sort};
    use std::test::Fail;

    fn ready(worst: u32, task: u32) -> Ready {
        Ready { worst, task }
    }

    fn running(end: u64, core: u32, task: u32) -> Running {
        Running { end, core, task }
    }

    fn full(place: u64) -> Result<(), Fault> {
        Err(Kind::TooSmall.at(place))
    }

    #[test]
    fn larger_worst_then_lower_task(rt: HostRuntime) -> Result<(), Fail> {
        let mut cells = [Ready::default(); 3];
        let mut queue = Queue::new(&mut cells);
        queue.put(ready(5, 2))?;
        queue.put(ready(5, 1))?;
        queue.put(ready(9, 3))?;
        assert_eq!(rt; queue.take(), Some(ready(9, 3)));
        assert_eq!(rt; queue.take(), Some(ready(5, 1)));
        assert_eq!(rt; queue.take(), Some(ready(5, 2)));
        assert_eq!(rt; queue.take(), None);
        Ok(())
    }

    #[test]
    fn earlier_end_then_lower_core(rt: HostRuntime) -> Result<(), Fail> {
        let mut cells = [Running::default(); 3];
        let mut queue = Queue::new(&mut cells);
        queue.put(running(7, 1, 4))?;
        queue.put(running(7, 0, 5))?;
        queue.put(running(3, 1, 6))?;
        assert_eq!(rt; queue.take(), Some(running(3, 1, 6)));
        assert_eq!(rt; queue.take(), Some(running(7, 0, 5)));
        assert_eq!(rt; queue.take(), Some(running(7, 1, 4)));
        Ok(())
    }

    #[test]
    fn a_freed_cell_is_used_again(rt: HostRuntime) -> Result<(), Fail> {
        let mut cells = [Ready::default(); 1];
        let mut queue = Queue::new(&mut cells);
        queue.put(ready(1, 1))?;
        assert_eq!(rt; queue.put(ready(2, 2)), full(2));
        assert_eq!(rt; queue.take(), Some(ready(1, 1)));
        queue.put(ready(2, 2))?;
        assert_eq!(rt; queue.count(), 1);
        assert_eq!(rt; queue.take(), Some(ready(2, 2)));
        Ok(())
    }

    #[test]
    fn no_cells(rt: HostRuntime) {
        let mut cells: [Running; 0] = [];
        let mut queue = Queue::new(&mut cells);
        assert_eq!(rt; queue.put(running(1, 1, 1)), full(1));
        assert_eq!(rt; queue.take(), None);
        assert_eq!(rt; queue.count(), 0);
    }

    #[test]
    fn equal_entries_and_the_lower_task(rt: HostRuntime) -> Result<(), Fail> {
        let mut cells = [Running::default(); 4];
        let mut queue = Queue::new(&mut cells);
        queue.put(running(5, 2, 9))?;
        queue.put(running(5, 2, 8))?;
        queue.put(running(5, 2, 9))?;
        assert_eq!(rt; queue.take(), Some(running(5, 2, 8)));
        assert_eq!(rt; queue.take(), Some(running(5, 2, 9)));
        assert_eq!(rt; queue.take(), Some(running(5, 2, 9)));
        assert_eq!(rt; queue.into_cells().len(), 4);
        Ok(())
    }

    #[test]
    fn sorts_many(rt: HostRuntime) -> Result<(), Fail> {
        let mut items = [
            ready(1, 0),
            ready(2, 0),
            ready(3, 0),
            ready(4, 0),
            ready(5, 0),
            ready(6, 0),
            ready(7, 0),
        ];
        let mut cells = [Ready::default(); 9];
        sort(&mut items, &mut cells)?;
        assert_eq!(rt;
            items,
            [
                ready(7, 0),
                ready(6, 0),
                ready(5, 0),
                ready(4, 0),
                ready(3, 0),
                ready(2, 0),
                ready(1, 0),
            ]
        );
        assert_eq!(rt; cells[8], ready(0, 0));
        let mut none: [Ready; 0] = [];
        sort(&mut none, &mut cells)?;
        assert_eq!(rt; none.len(), 0);
        Ok(())
    }

    #[test]
    fn sorts(rt: HostRuntime) -> Result<(), Fail> {
        let mut items = [ready(2, 1), ready(4, 2), ready(2, 0)];
        let mut cells = [Ready::default(); 3];
        assert_eq!(rt; sort(&mut items, &mut cells[0..2]), full(3));
        assert_eq!(rt; items, [ready(2, 1), ready(4, 2), ready(2, 0)]);
        sort(&mut items, &mut cells)?;
        assert_eq!(rt; items, [ready(4, 2), ready(2, 0), ready(2, 1)]);
        Ok(())
    }
}
