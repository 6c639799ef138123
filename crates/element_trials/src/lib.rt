// Trials of the element layer: what is written into areas of all sizes, typed values of contents, and which
// numbers are moments. The forms of elements are tried by the program's own log.
#![tactic(auto)]

#[cfg(test)]
mod tests {
    use content::{read_bit_string, read_boolean, read_integer, read_oid};
    use element::{LONGEST, header_size, read_first, write, write_header};
    use fault::Rule;
    use moment::{Moment, generalized_time, is_moment, utc_time};
    use std::test::Fail;

    // The boundary lengths, each into an area that fits, one that is too short, and one with room to spare.
    #[test]
    fn written_elements_read_back(rt: HostRuntime) -> Result<(), Fail> {
        let heap = rt.alloc();
        for size in [0usize, 1, 127, 128, 255, 256, 65_535] {
            let content = vec![in heap; 0x61u8; size]?;
            let whole = header_size(size) + size;
            let mut area = vec![in heap; 0xeeu8; whole + 3]?;
            assert_eq!(rt;
                write(0x04, content.as_slice(), area.as_mut_slice()),
                Ok(whole)
            );
            let Ok((element, rest)) = read_first(area.as_slice()) else {
                return Err(Fail::new("what was written is no element"));
            };
            assert!(rt; element.tag == 0x04);
            assert!(rt; element.content.octets == content.as_slice());
            assert!(rt; rest.place == whole);
            assert!(rt; rest.octets == [0xee, 0xee, 0xee].as_slice());
            let mut short = vec![in heap; 0xeeu8; whole - 1]?;
            assert_eq!(rt;
                write(0x04, content.as_slice(), short.as_mut_slice()),
                Err(Rule::Area)
            );
            for octet in short.as_slice() {
                assert!(rt; *octet == 0xee);
            }
        }
        Ok(())
    }

    // No element has so long a content, whatever the area.
    #[test]
    fn longer_contents_are_refused(rt: HostRuntime) -> Result<(), Fail> {
        let heap = rt.alloc();
        let content = vec![in heap; 0u8; LONGEST + 1]?;
        let mut area = vec![in heap; 0xeeu8; 70_000]?;
        assert_eq!(rt;
            write(0x04, content.as_slice(), area.as_mut_slice()),
            Err(Rule::Form)
        );
        assert_eq!(rt;
            write_header(0x30, LONGEST + 1, area.as_mut_slice()),
            Err(Rule::Form)
        );
        assert_eq!(rt; write_header(0x30, LONGEST, area.as_mut_slice()), Ok(4));
        let mut short = [0xeeu8; 3];
        assert_eq!(rt; write_header(0x30, 256, &mut short), Err(Rule::Area));
        assert!(rt; short == [0xee, 0xee, 0xee]);
        Ok(())
    }

    #[test]
    fn contents_have_their_values(rt: HostRuntime) -> Result<(), Fail> {
        assert_eq!(rt; read_boolean(&[0xff]), Some(true));
        assert_eq!(rt; read_boolean(&[0x00]), Some(false));
        assert_eq!(rt; read_boolean(&[0x01]), None);
        for (octet, negative) in [(0x00u8, false), (0x7f, false), (0x80, true), (0xff, true)] {
            let octets = [octet];
            let Some(value) = read_integer(&octets) else {
                return Err(Fail::new("one octet is an INTEGER"));
            };
            assert!(rt; value.negative == negative);
            assert!(rt; value.octets == [octet].as_slice());
        }
        assert!(rt; read_integer(&[0x00, 0x7f]).is_none());
        let Some(bits) = read_bit_string(&[0x04, 0x0a, 0x40]) else {
            return Err(Fail::new("10.64.0.0/12 is a BIT STRING"));
        };
        assert!(rt; bits.unused == 4);
        assert!(rt; bits.octets == [0x0a, 0x40].as_slice());
        assert!(rt; read_bit_string(&[0x04, 0x0a, 0x41]).is_none());
        assert!(rt; read_oid(&[0x2a, 0x86, 0x48]).is_some());
        assert!(rt; read_oid(&[0x2a, 0x80, 0x01]).is_none());
        Ok(())
    }

    #[test]
    fn moments_are_true_dates(rt: HostRuntime) {
        let moments = [
            1_01_01_00_00_00u64,
            2024_02_29_23_59_59,
            2000_02_29_00_00_00,
            9999_12_31_23_59_59,
        ];
        for number in moments {
            assert!(rt; is_moment(number), "is a moment");
        }
        let others = [
            0u64,
            1900_02_29_00_00_00,
            2023_02_29_00_00_00,
            2024_04_31_00_00_00,
            2024_01_01_00_00_60,
            2024_01_01_24_00_00,
            10000_01_01_00_00_00,
            u64::MAX,
        ];
        for number in others {
            assert!(rt; Moment::new(number).is_none(), "is no moment");
        }
    }

    #[test]
    fn times_say_moments(rt: HostRuntime) -> Result<(), Fail> {
        let Some(early) = utc_time(b"500101000000Z") else {
            return Err(Fail::new("1950 is the first year of a UTCTime"));
        };
        assert!(rt; early.number() == 1950_01_01_00_00_00);
        let Some(late) = utc_time(b"491231235959Z") else {
            return Err(Fail::new("2049 is the last year of a UTCTime"));
        };
        assert!(rt; late.year() == 2049);
        let Some(other) = generalized_time(b"20500101000000Z") else {
            return Err(Fail::new("2050 is a year of a GeneralizedTime"));
        };
        assert!(rt; other.number() == 2050_01_01_00_00_00);
        assert!(rt; generalized_time(b"500101000000Z").is_none());
        Ok(())
    }
}
