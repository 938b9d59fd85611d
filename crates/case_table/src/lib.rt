//! Texts and lists that contracts see as the list of their elements, and tables of names.
#![tactic(auto)]

mod out_of_memory;
mod seq;
mod table;
mod text;

pub use out_of_memory::OutOfMemory;
pub use seq::Seq;
pub use table::{NotAscending, Row, Table};
pub use text::Text;

#[cfg(test)]
mod tests {
    use super::{NotAscending, Row, Seq, Table, Text};
    use std::cmp::Ordering;
    use std::hash::{DefaultHasher, Hash, Hasher};
    use std::test::Fail;
    use std::thread;

    fn hash_of<T: Hash>(value: &T) -> u64 {
        let mut hasher = DefaultHasher::new();
        value.hash(&mut hasher);
        hasher.finish()
    }

    #[test]
    fn texts_are_their_bytes(rt: HostRuntime) -> Result<(), Fail> {
        let alloc = rt.alloc();
        let made = Text::of(String::from_str(alloc, "mix")?);
        let copied = Text::copy(alloc, "mix")?;
        let cloned = copied.clone()?;
        assert_eq!(rt; cloned.as_str(), "mix");
        assert!(rt; made == copied);
        assert!(rt; hash_of(&made) == hash_of(&copied));
        let longer = Text::copy(alloc, "mixed")?;
        assert!(rt; made != longer);
        assert!(rt; made.cmp(&longer) == Ordering::Less);
        assert!(rt; longer.partial_cmp(&made) == Some(Ordering::Greater));
        assert!(rt; hash_of(&made) != hash_of(&longer));
        assert_eq!(rt; Text::copy(alloc, "")?.as_str(), "");
        Ok(())
    }

    #[test]
    fn texts_are_the_same_inside_and_outside(rt: HostRuntime) -> Result<(), Fail> {
        let alloc = rt.alloc();
        for text in [
            "",
            "mix",
            "sixteen_bytes_in",
            "seventeen_bytes_i",
            "\u{e9}\u{e9}\u{e9}\u{e9}\u{e9}\u{e9}\u{e9}\u{e9}\u{e9}",
        ] {
            let outside = Text::of(String::from_str(alloc, text)?);
            let copied = Text::copy(alloc, text)?;
            assert_eq!(rt; outside.as_str(), text);
            assert_eq!(rt; copied.as_str(), text);
            assert_eq!(rt; outside.clone()?.as_str(), text);
            assert_eq!(rt; copied.clone()?.as_str(), text);
            assert!(rt; outside == copied);
            assert!(rt; copied.cmp(&outside) == Ordering::Equal);
            assert!(rt; hash_of(&copied) == hash_of(&outside));
        }
        Ok(())
    }

    #[test]
    fn lists_are_their_elements(rt: HostRuntime) -> Result<(), Fail> {
        let alloc = rt.alloc();
        let made = Seq::of(vec![in alloc; 3u32, 1]?);
        let copied = Seq::copy(alloc, &[3u32, 1])?;
        let cloned = copied.clone()?;
        assert_eq!(rt; cloned.list(), [3u32, 1].as_slice());
        assert!(rt; made == copied);
        assert!(rt; hash_of(&made) == hash_of(&copied));
        let later = Seq::copy(alloc, &[3u32, 2])?;
        assert!(rt; made != later);
        assert!(rt; made.cmp(&later) == Ordering::Less);
        assert!(rt; later.partial_cmp(&made) == Some(Ordering::Greater));
        assert!(rt; hash_of(&made) != hash_of(&later));
        Ok(())
    }

    #[test]
    fn tables_have_the_values_of_their_rows(rt: HostRuntime) {
        let found = Table::new(&[
            Row { name: "", value: 7 },
            Row {
                name: "B",
                value: 3,
            },
            Row {
                name: "a",
                value: 9,
            },
            Row {
                name: "ab",
                value: 3,
            },
            Row {
                name: "é",
                value: 0,
            },
        ]);
        let table = match found {
            Ok(table) => table,
            Err(_) => panic!(rt; "the names ascend"),
        };
        let cases: [(&str, Option<u16>); 8] = [
            ("", Some(7)),
            ("B", Some(3)),
            ("a", Some(9)),
            ("ab", Some(3)),
            ("é", Some(0)),
            ("b", None),
            ("A", None),
            ("abc", None),
        ];
        for (name, value) in cases {
            assert_eq!(rt; table.find(name.as_bytes()), value);
        }
    }

    #[test]
    fn tables_refuse_the_first_name_out_of_order(rt: HostRuntime) {
        let cases: [(&'static [Row], Option<usize>); 4] = [
            (&[], None),
            (
                &[
                    Row {
                        name: "b",
                        value: 0,
                    },
                    Row {
                        name: "a",
                        value: 1,
                    },
                ],
                Some(1),
            ),
            (
                &[
                    Row {
                        name: "a",
                        value: 0,
                    },
                    Row {
                        name: "a",
                        value: 0,
                    },
                ],
                Some(1),
            ),
            (
                &[
                    Row {
                        name: "a",
                        value: 0,
                    },
                    Row {
                        name: "c",
                        value: 1,
                    },
                    Row {
                        name: "b",
                        value: 2,
                    },
                    Row {
                        name: "a",
                        value: 3,
                    },
                ],
                Some(2),
            ),
        ];
        for (rows, at) in cases {
            let refused = Table::new(rows).err();
            assert_eq!(rt; refused, at.map(|at| NotAscending { at }));
        }
    }

    #[test]
    fn texts_and_lists_cross_threads(rt: HostRuntime) -> Result<(), Fail> {
        let alloc = rt.alloc();
        let (text, list) = thread::join(
            &rt,
            move || Text::copy(alloc, "left"),
            move || Seq::copy(alloc, &[2u32, 7]),
        );
        let (text, list) = (text?, list?);
        assert_eq!(rt; text.as_str(), "left");
        assert_eq!(rt; list.list(), [2u32, 7].as_slice());
        Ok(())
    }
}
