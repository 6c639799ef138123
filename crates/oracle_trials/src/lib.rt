// Trials of the oracles: a book that the writer filled, asked by the walk and by its index, and the test scheme.
#![tactic(auto)]

#[cfg(test)]
mod tests {
    use book::Book;
    use book_index::Index;
    use book_writer::{write_digest, write_verdict};
    use oracle::{Claim, Oracle, Scheme};
    use std::alloc::Global;
    use std::test::Fail;

    // The claim that a signature is one by a key on a message.
    fn claim_of<'a>(key: &'a [u8], message: &'a [u8], signature: &'a [u8]) -> Claim<'a> {
        Claim {
            signature,
            message,
            key,
        }
    }

    // A book of two digests of the same octets, one of none, and one verdict.
    fn written(heap: Global) -> Result<Vec<u8>, Fail> {
        let mut book = Vec::new(heap);
        write_digest(&mut book, b"ab", &[1; 32])?;
        write_verdict(&mut book, claim_of(b"key", b"message", b"sig"))?;
        write_digest(&mut book, b"ab", &[2; 32])?;
        write_digest(&mut book, b"", &[3; 32])?;
        Ok(book)
    }

    #[test]
    fn a_written_book_answers(rt: HostRuntime) -> Result<(), Fail> {
        let octets = written(rt.alloc())?;
        let book = Book {
            octets: octets.as_slice(),
        };
        assert!(rt; book.digest(b"ab") == Some([1; 32]), "the first of two");
        assert!(rt; book.digest(b"") == Some([3; 32]), "no octets");
        assert!(rt; book.digest(b"a").is_none(), "unknown octets");
        assert!(rt;
            book.verifies(claim_of(b"key", b"message", b"sig")),
            "an equal record"
        );
        assert!(rt;
            !book.verifies(claim_of(b"key", b"messagf", b"sig")),
            "one octet differs"
        );
        assert!(rt;
            !book.verifies(claim_of(b"keym", b"essage", b"sig")),
            "another cut"
        );
        Ok(())
    }

    #[test]
    fn its_index_answers_alike(rt: HostRuntime) -> Result<(), Fail> {
        let octets = written(rt.alloc())?;
        let index = Index::open(rt.alloc(), octets.as_slice())?;
        assert!(rt; index.digest(b"ab") == Some([1; 32]), "the first of two");
        assert!(rt; index.digest(b"") == Some([3; 32]), "no octets");
        assert!(rt; index.digest(b"a").is_none(), "unknown octets");
        assert!(rt;
            index.verifies(claim_of(b"key", b"message", b"sig")),
            "an equal record"
        );
        assert!(rt;
            !index.verifies(claim_of(b"key", b"messagf", b"sig")),
            "one octet differs"
        );
        assert!(rt;
            !index.verifies(claim_of(b"keym", b"essage", b"sig")),
            "another cut"
        );
        Ok(())
    }

    #[test]
    fn the_scheme_fills_its_last_block(rt: HostRuntime) {
        assert!(rt; Scheme.digest(b"") == Some([0; 32]), "no octets");
        assert!(rt;
            Scheme.digest(&[7; 64]) == Some([0; 32]),
            "two equal blocks"
        );
        assert!(rt; Scheme.digest(&[7; 32]) == Some([7; 32]), "one block");
        assert!(rt;
            Scheme.verifies(claim_of(&[1; 32], &[2; 32], &[3; 32])),
            "a good signature"
        );
        assert!(rt;
            !Scheme.verifies(claim_of(&[1; 32], &[2; 32], &[3; 31])),
            "a short one"
        );
    }
}
