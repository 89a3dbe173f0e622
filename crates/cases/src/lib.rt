// Worked examples: one table of them that is proved of the definitions, and tests that run the code
// on examples.
#![tactic(auto)]

ghost use Rattle.std.specs.Prelude.{◌≡◌, length};
ghost use Rattle.cases.specs.Counter.{table, ExamplesStand};

/// A theorem: of each worked example in the table, which are the rows of `table` in the specs, the
/// definitions give the answer that stands there. It answers how many there are: eleven.
pub fn examples_stand() -> u64
    ensures stand { ExamplesStand }
    ensures count { result ≡ length table }
{
    11
}

#[cfg(test)]
mod tests {
    use books::{Book, Draft, procedure_named};
    use ledger::{Balance, Ledger};
    use refusals::StepPlace;
    use registry::{BookName, TypedNote};
    use script::{BadLine, Command, Fault, LONGEST, Misfit, Numbered, read_script};
    use std::test::*;
    use stock::{Reels, Stock};

    // What a note is typed as.
    fn draft(procedure: u64, a: u64, b: u64, amount: u64) -> Draft {
        Draft {
            procedure,
            a,
            b,
            amount,
        }
    }

    // Whether a script is read to its end and asks for nothing.
    fn asks_nothing(rt: &HostRuntime, script: &[u8]) -> Result<bool, Fail> {
        let read = read_script(rt.alloc(), script)?;
        Ok(read.fault.is_none() && read.commands.is_empty())
    }

    // Whether a script is bad at this line, and asks for nothing above it.
    fn is_bad_at(rt: &HostRuntime, script: &[u8], line: u64) -> Result<bool, Fail> {
        let read = read_script(rt.alloc(), script)?;
        let place = read.fault.map(|fault| fault.place());
        Ok(place == Some(line) && read.commands.is_empty())
    }

    // What does not fit in the bad line of a script, if it has one.
    fn misfit_in<'a>(rt: &HostRuntime, script: &'a [u8]) -> Result<Option<Misfit<'a>>, Fail> {
        match read_script(rt.alloc(), script)?.fault {
            Some(Fault::BadLine(bad_line)) => Ok(Some(bad_line.misfit)),
            _ => Ok(None),
        }
    }

    // Whether this word does not fit in the bad line of a script.
    fn is_misfit(rt: &HostRuntime, script: &[u8], word: &[u8]) -> Result<bool, Fail> {
        Ok(misfit_in(rt, script)? == Some(Misfit::Word(word)))
    }

    // Whether a word is missing in the bad line of a script.
    fn is_too_short(rt: &HostRuntime, script: &[u8]) -> Result<bool, Fail> {
        Ok(misfit_in(rt, script)? == Some(Misfit::TooShort))
    }

    // Whether a bad line is told in these words.
    fn is_told(rt: &HostRuntime, bad_line: BadLine, text: &str) -> Result<bool, Fail> {
        let told = format!(in rt.alloc(); "{bad_line}")?;
        Ok(told.as_str() == text)
    }

    #[test]
    fn a_ledger_posting(rt: HostRuntime) -> Result<(), Fail> {
        let mut codes = [0u64; 64];
        assert!(rt; Ledger.verify(&codes));
        let (a, b) = Ledger.step(draft(1, 8, 0, 4500), (codes[8], codes[0]))?;
        assert_eq!(rt; Ledger.decode(b), Balance { pence: -4500 });
        codes[8] = a;
        assert!(rt; !Ledger.verify(&codes), "half a posting does not balance");
        codes[0] = b;
        assert!(rt; Ledger.verify(&codes));
        assert!(rt; !Ledger.verify(&codes[0..63]), "63 items are no ledger");
        Ok(())
    }

    #[test]
    fn where_the_ledger_refuses(rt: HostRuntime) -> Result<(), Fail> {
        assert_eq!(rt;
            Ledger.step(draft(1, 0, 8, 1), (0, 0)),
            Err(StepPlace::Items),
            "a charge the wrong way round"
        );
        assert_eq!(rt;
            Ledger.step(draft(3, 8, 8, 1), (0, 0)),
            Err(StepPlace::Items),
            "a shift to the same item"
        );
        assert_eq!(rt;
            Ledger.step(draft(4, 8, 0, 1), (0, 0)),
            Err(StepPlace::Items),
            "no such procedure"
        );
        assert_eq!(rt;
            Ledger.step(draft(1, 8, 0, 0), (0, 0)),
            Err(StepPlace::Amount)
        );
        assert_eq!(rt;
            Ledger.step(draft(1, 8, 0, 1), (1 << 63, 0)),
            Err(StepPlace::Values),
            "a garbage code"
        );
        Ok(())
    }

    #[test]
    fn a_stock_posting(rt: HostRuntime) -> Result<(), Fail> {
        let shelf = Stock.encode(Reels { held: 4, most: 10 });
        assert_eq!(rt; shelf, 42949672964);
        let mut codes = [0u64; 64];
        codes[0] = shelf;
        codes[1] = shelf;
        assert!(rt; Stock.verify(&codes));
        let (a, b) = Stock.step(draft(2, 1, 0, 6), (codes[1], codes[0]))?;
        assert_eq!(rt; Stock.decode(a), Reels { held: 10, most: 10 });
        codes[1] = a;
        assert!(rt; !Stock.verify(&codes), "the sums have not moved");
        codes[0] = b;
        assert!(rt; Stock.verify(&codes));
        Ok(())
    }

    #[test]
    fn where_the_stock_book_refuses(rt: HostRuntime) -> Result<(), Fail> {
        let shelf = Stock.encode(Reels { held: 4, most: 10 });
        assert_eq!(rt;
            Stock.step(draft(2, 0, 0, 1), (shelf, shelf)),
            Err(StepPlace::Items)
        );
        assert_eq!(rt;
            Stock.step(draft(2, 1, 2, 1), (shelf, shelf)),
            Err(StepPlace::Items)
        );
        assert_eq!(rt;
            Stock.step(draft(2, 1, 0, 10001), (shelf, shelf)),
            Err(StepPlace::Amount)
        );
        assert_eq!(rt;
            Stock.step(draft(2, 1, 0, 7), (shelf, shelf)),
            Err(StepPlace::Values),
            "more than the shelf takes"
        );
        assert_eq!(rt;
            Stock.step(draft(3, 1, 0, 5), (shelf, shelf)),
            Err(StepPlace::Values),
            "more than it holds"
        );
        assert_eq!(rt;
            Stock.step(draft(3, 1, 0, 4), (shelf, 0)),
            Err(StepPlace::Values),
            "more than the sums hold"
        );
        Ok(())
    }

    #[test]
    fn words_name_procedures(rt: HostRuntime) -> Result<(), Fail> {
        assert_eq!(rt; procedure_named(&Ledger, b"shift"), Some(3));
        assert_eq!(rt; procedure_named(&Ledger, b"shifty"), None);
        assert_eq!(rt; procedure_named(&Stock, b"shift"), None);
        assert_eq!(rt; procedure_named(&Stock, b"build"), Some(1));
        Ok(())
    }

    #[test]
    fn scripts_that_are_fine(rt: HostRuntime) -> Result<(), Fail> {
        assert!(rt; asks_nothing(&rt, b"")?);
        assert!(rt; asks_nothing(&rt, b"\n \t\r\n# a comment\nbook ledger")?);
        let read = read_script(
            rt.alloc(),
            b"book ledger # money\r\n\tnote  receipt 00 8 4500#paid\r\n",
        )?;
        assert_eq!(rt; read.fault, None);
        assert_eq!(rt;
            read.commands.as_slice(),
            [Numbered {
                line: 2,
                command: Command::Note(TypedNote {
                    book: BookName::Ledger,
                    draft: draft(2, 0, 8, 4500),
                }),
            }]
            .as_slice()
        );
        Ok(())
    }

    #[test]
    fn calls_name_slips_and_words(rt: HostRuntime) -> Result<(), Fail> {
        let text = b"book stock\nenter s1 3 pin take 1 0 4\ncountersign s1 4 pen\n";
        let read = read_script(rt.alloc(), text)?;
        assert_eq!(rt; read.fault, None);
        assert_eq!(rt; read.commands.len(), 2);
        assert_eq!(rt;
            read.commands[0].command,
            Command::Enter {
                slip: b"s1",
                user: 3,
                word: b"pin",
                note: TypedNote {
                    book: BookName::Stock,
                    draft: draft(2, 1, 0, 4),
                },
            }
        );
        assert_eq!(rt;
            read.commands[1],
            Numbered {
                line: 3,
                command: Command::Countersign {
                    slip: b"s1",
                    user: 4,
                    word: b"pen",
                },
            }
        );
        Ok(())
    }

    #[test]
    fn a_setup_is_gathered(rt: HostRuntime) -> Result<(), Fail> {
        let text =
            b"roll ann bob\nhouse 1\nopening 0x101 0\nbook stock\nbook ledger\nroll\nroll c\n\
                     cuts 65535 0\nopening 7\nhouse 0XfF\nhouse 2";
        let read = read_script(rt.alloc(), text)?;
        assert_eq!(rt;
            read.fault,
            Some(Fault::BadLine(BadLine {
                number: 10,
                text: b"house 0XfF",
                misfit: Misfit::Word(b"0XfF"),
            })),
            "a capital X is no prefix"
        );
        assert_eq!(rt; read.setup.book, Some(BookName::Stock));
        assert_eq!(rt; read.setup.house, 1);
        assert_eq!(rt; read.setup.roll.as_slice(), b"annbobc".as_slice());
        assert_eq!(rt; read.setup.opening.as_slice(), [257, 0, 7].as_slice());
        assert_eq!(rt; read.setup.cuts.as_slice(), [65535, 0].as_slice());
        Ok(())
    }

    #[test]
    fn bad_lines(rt: HostRuntime) -> Result<(), Fail> {
        assert!(rt;
            is_bad_at(&rt, b"note charge 8 0 1", 1)?,
            "no book is chosen"
        );
        assert!(rt; is_bad_at(&rt, b"book", 1)?);
        assert!(rt; is_bad_at(&rt, b"book ledger stock", 1)?);
        assert!(rt; is_bad_at(&rt, b"book Ledger", 1)?);
        assert!(rt; is_bad_at(&rt, b"\n\nbook ledger\nnote", 4)?);
        assert!(rt;
            is_bad_at(&rt, b"book stock\nnote charge 1 0 1", 2)?,
            "a word of the other book"
        );
        assert!(rt; is_bad_at(&rt, b"book stock\nnote take 1 0 1 1", 2)?);
        assert!(rt;
            is_bad_at(&rt, b"book stock\nnote take 1 0 18446744073709551616", 2)?,
            "more than 64 bits"
        );
        assert!(rt; is_bad_at(&rt, b"book stock\nnote take 1 0 -1", 2)?);
        assert!(rt; is_bad_at(&rt, b"book stock\nnote take 1 0 +1", 2)?);
        assert!(rt; is_bad_at(&rt, b"# caf\xc3\xa9", 1)?, "no ASCII text");
        assert!(rt; is_bad_at(&rt, b"\0", 1)?);
        Ok(())
    }

    #[test]
    fn bad_calls_and_setups(rt: HostRuntime) -> Result<(), Fail> {
        assert!(rt; is_bad_at(&rt, b"attach", 1)?, "no book is chosen");
        assert!(rt; is_bad_at(&rt, b"book ledger\nattach 1", 2)?);
        assert!(rt; is_bad_at(&rt, b"book ledger\nitem 0x", 2)?);
        assert!(rt; is_bad_at(&rt, b"book ledger\nitem 0xg", 2)?);
        assert!(rt; is_bad_at(&rt, b"book ledger\nitem 0x10000000000000000", 2)?);
        assert!(rt; is_bad_at(&rt, b"cuts 1 65536", 1)?);
        assert!(rt; is_bad_at(&rt, b"opening 1 x", 1)?);
        assert!(rt; is_bad_at(&rt, b"house", 1)?);
        assert!(rt; is_bad_at(&rt, b"book stock\ncertify w 0 1 charge 1 1", 2)?);
        Ok(())
    }

    #[test]
    fn a_script_of_the_largest_size(rt: HostRuntime) -> Result<(), Fail> {
        assert_eq!(rt; LONGEST, 65536);
        let most = vec![in rt.alloc(); b'\n'; 65536]?;
        assert!(rt; asks_nothing(&rt, most.as_slice())?);
        let more = vec![in rt.alloc(); b'\n'; 65537]?;
        assert!(rt; is_bad_at(&rt, more.as_slice(), 0)?);
        let read = read_script(rt.alloc(), more.as_slice())?;
        assert_eq!(rt; read.fault, Some(Fault::TooLong));
        Ok(())
    }

    #[test]
    fn words_that_do_not_fit(rt: HostRuntime) -> Result<(), Fail> {
        assert!(rt;
            is_misfit(&rt, b"bok ledger", b"bok")?,
            "the first word of no form"
        );
        assert!(rt; is_misfit(&rt, b"book Ledger", b"Ledger")?);
        assert!(rt; is_misfit(&rt, b"item 8", b"item")?, "no book is chosen");
        assert!(rt;
            is_misfit(&rt, b"book stock\nnote charge 1 0 x", b"charge")?,
            "a word of the other book, before a word that is no number"
        );
        assert!(rt; is_misfit(&rt, b"house 18446744073709551616", b"18446744073709551616")?);
        assert!(rt;
            is_misfit(&rt, b"book ledger\nattach 1 # so", b"1")?,
            "a word too many"
        );
        assert!(rt; is_misfit(&rt, b"cuts 1 65535 65536 x", b"65536")?);
        Ok(())
    }

    #[test]
    fn words_that_are_missing(rt: HostRuntime) -> Result<(), Fail> {
        assert!(rt; is_too_short(&rt, b"book")?);
        assert!(rt; is_too_short(&rt, b"book stock\nnote take 1 0 # 4")?);
        assert!(rt; is_too_short(&rt, b"book ledger\nenter s1 3 pin 9")?);
        Ok(())
    }

    #[test]
    fn a_bad_line_is_quoted(rt: HostRuntime) -> Result<(), Fail> {
        let word = BadLine {
            number: 1,
            text: b"item \"bad\"\r",
            misfit: Misfit::Word(b"\"bad\""),
        };
        assert!(rt;
            is_told(
                &rt,
                word,
                "  \"item \\\"bad\\\"\\r\": \"\\\"bad\\\"\" does not fit"
            )?
        );
        let short = BadLine {
            number: 1,
            text: b"item",
            misfit: Misfit::TooShort,
        };
        assert!(rt; is_told(&rt, short, "  \"item\": a word is missing")?);
        let text = b"caf\xc3\xa9";
        let coffee = BadLine {
            number: 1,
            text,
            misfit: Misfit::NoText,
        };
        assert_eq!(rt; misfit_in(&rt, text)?, Some(Misfit::NoText));
        assert!(rt; is_told(&rt, coffee, "  \"caf\\xc3\\xa9\": a byte is no text")?);
        Ok(())
    }
}
