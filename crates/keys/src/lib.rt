// The two kinds of key: by left work, for SRPT, and by name, for a report; each is shown to keep the order law.
#![tactic(auto)]

pub mod left;
pub mod named;

#[cfg(test)]
mod tests {
    use crate::left::LeftKey;
    use heap::IndexedHeap;
    use refusal::Refusal;

    // Three keys and four places: the capacity is three.
    #[test]
    fn least_left_comes_first(rt: HostRuntime) {
        let mut keys = [LeftKey { left: 0, number: 0 }; 3];
        let mut places = [0; 4];
        let mut heap = IndexedHeap::new(&mut keys, &mut places);
        assert_eq!(rt; heap.first(), Err(Refusal::Nobody));
        assert_eq!(rt; heap.insert(LeftKey { left: 5, number: 0 }), Ok(()));
        assert_eq!(rt; heap.insert(LeftKey { left: 3, number: 2 }), Ok(()));
        assert_eq!(rt;
            heap.insert(LeftKey { left: 9, number: 2 }),
            Err(Refusal::Held)
        );
        assert_eq!(rt;
            heap.insert(LeftKey { left: 1, number: 3 }),
            Err(Refusal::OutOfRange)
        );
        assert_eq!(rt; heap.first(), Ok(2));
        assert_eq!(rt; heap.replace(LeftKey { left: 5, number: 2 }), Ok(()));
        assert_eq!(rt; heap.first(), Ok(0));
        assert_eq!(rt; heap.remove(1), Err(Refusal::NotHeld));
        assert_eq!(rt; heap.remove(0), Ok(()));
        assert_eq!(rt; heap.count(), 1);
    }
}
