// Trials of routes, printed lists and verdicts. The addresses were worked out by another library, the rest by hand.
#![tactic(auto)]

#[cfg(test)]
mod tests {
    use listing::print;
    use listing_reader::read;
    use payload::{Family, Payload, PayloadList, Prefix};
    use route_text::{read_origin, read_route};
    use verdict::{Route, judge};

    // Whether a word is a route of this address and length.
    fn is_route(word: &[u8], address: u128, length: u8) -> bool {
        match read_route(word) {
            Ok(route) => route.address == address && route.length == length,
            Err(_) => false,
        }
    }

    #[test]
    fn routes_are_read(rt: HostRuntime) {
        for (word, address, length) in [
            (
                "192.0.2.0/24",
                0xc000_0200_0000_0000_0000_0000_0000_0000u128,
                24u8,
            ),
            (
                "2001:db8::/32",
                0x2001_0db8_0000_0000_0000_0000_0000_0000,
                32,
            ),
            (
                "2001:DB8:0:0:8:800:200C:417A/128",
                0x2001_0db8_0000_0000_0008_0800_200c_417a,
                128,
            ),
            (
                "2001:0db8:0000:0000:0000:0000:0000:0000/32",
                0x2001_0db8_0000_0000_0000_0000_0000_0000,
                32,
            ),
            ("::/0", 0, 0),
            (
                "1:2:3:4:5:6:7::/112",
                0x0001_0002_0003_0004_0005_0006_0007_0000,
                112,
            ),
            (
                "::2:3:4:5:6:7:8/128",
                0x0000_0002_0003_0004_0005_0006_0007_0008,
                128,
            ),
            (
                "10.0.0.0/300",
                0x0a00_0000_0000_0000_0000_0000_0000_0000,
                255,
            ),
        ] {
            assert!(rt; is_route(word.as_bytes(), address, length), "{}", word);
        }
    }

    // No route, each.
    const NO_ROUTES: &str =
        ",192.0.2.0,192.0.2/24,192.0.2.256/24,192.0.02.0/24,192.0.2.0/024,192.0.2.0/24 ,:/0,1:2/16,1::2::3/48,1:2:3:4:5:6:7:8:9/128,12345::/16,::1:2:3:4:5:6:7:8/128,2001:db8::/,g::/8";

    // No origin, each.
    const NO_ORIGINS: &str = ",AS,as1,4294967296,01,-1,AS1 ,None,none ";

    #[test]
    fn misspelt_words_are_refused(rt: HostRuntime) {
        for word in NO_ROUTES.split(',') {
            assert!(rt; read_route(word.as_bytes()).is_err(), "{}", word);
        }
        for word in NO_ORIGINS.split(',') {
            assert!(rt; read_origin(word.as_bytes()).is_err(), "{}", word);
        }
        assert!(rt; read_origin(b"none").is_ok(), "none");
        assert!(rt; read_origin(b"AS4294967295").is_ok(), "the last AS");
    }

    // Room for four payloads.
    fn room() -> [Payload; 4] {
        let prefix = Prefix {
            family: Family::Ipv4,
            address: 0,
            length: 0,
        };
        [Payload {
            asn: 0,
            prefix,
            max: 0,
        }; 4]
    }

    // The first wrong line of a text, and 0 where none is wrong and it is printed as it was.
    fn wrong_line(text: &str) -> usize {
        let mut entries = room();
        let mut list = PayloadList::new(&mut entries);
        match read(text.as_bytes(), &mut list) {
            Ok(()) => {
                let mut area = [0u8; 512];
                match print(&list, &mut area) {
                    Ok(size) if size <= 512 && &area[0..size] == text.as_bytes() => 0,
                    _ => 99,
                }
            },
            Err(bad) => bad.line,
        }
    }

    // Texts, those that have their first wrong line at one place between two bars.
    const GOOD: &str =
        "payloads=0\n|payloads=1\nasn=64496 prefix=192.0.2.0/24 max=26\n|payloads=2\nasn=0 prefix=0.0.0.0/0 max=32\nasn=4294967295 prefix=2001:0db8:0000:0000:0000:0000:0000:0000/32 max=128\n";

    const WRONG_FIRST: &str = "|payloads=0|payloads=00\n|payload=0\n|payloads=5\n";

    const WRONG_SECOND: &str =
        "payloads=1\n|payloads=0\n\n|payloads=1\nasn=64496 prefix=192.0.2.0/24 max=26|payloads=1\nasn=64496 prefix=192.0.2.0/24  max=26\n|payloads=1\nasn=064496 prefix=192.0.2.0/24 max=26\n|payloads=1\nasn=64496 prefix=2001:db8::/32 max=32\n|payloads=1\nasn=64496 prefix=192.0.2.1/24 max=26\n|payloads=1\nasn=64496 prefix=192.0.2.0/24 max=23\n|payloads=1\nasn=64496 prefix=192.0.2.0/24 max=33\n";

    const WRONG_THIRD: &str =
        "payloads=2\nasn=64496 prefix=192.0.2.0/24 max=26\n|payloads=2\nasn=64496 prefix=192.0.2.0/24 max=26\nasn=64496 prefix=192.0.2.0/24 max=26\n|payloads=2\nasn=64497 prefix=192.0.2.0/24 max=26\nasn=64496 prefix=192.0.2.0/24 max=26\n|payloads=1\nasn=64496 prefix=192.0.2.0/24 max=26\nasn=64497 prefix=192.0.2.0/24 max=26\n";

    // Whether the first wrong line of each text is this one.
    fn all_wrong_at(texts: &str, line: usize) -> bool {
        for text in texts.split('|') {
            if wrong_line(text) != line {
                return false;
            }
        }
        true
    }

    #[test]
    fn printed_lists_are_read(rt: HostRuntime) {
        assert!(rt; all_wrong_at(GOOD, 0), "read and printed again");
        assert!(rt; all_wrong_at(WRONG_FIRST, 1), "the first line");
        assert!(rt; all_wrong_at(WRONG_SECOND, 2), "the second line");
        assert!(rt; all_wrong_at(WRONG_THIRD, 3), "the third line");
    }

    // The word of a judgement, or why there is none.
    fn word_of(list: &PayloadList<'_>, route: &str, origin: &str) -> &'static str {
        let (Ok(prefix), Ok(origin)) = (
            read_route(route.as_bytes()),
            read_origin(origin.as_bytes()),
        ) else {
            return "misspelt";
        };
        match judge(list, Route { prefix, origin }) {
            Ok(verdict) => verdict.word(),
            Err(_) => "14",
        }
    }

    // Verdict, route and origin.
    const JUDGED: &str =
        "valid 192.0.2.64/26 AS64496|invalid 192.0.2.64/27 64496|not-found 192.0.0.0/16 64496|invalid 192.0.2.0/24 64497|invalid 192.0.2.0/24 none|invalid 198.51.100.0/24 0|not-found 203.0.113.0/24 none|valid 2001:db8:1::/48 64497|invalid 2001:db8:1::/49 64497|not-found 2001:db9::/32 64497|14 192.0.2.1/24 64496|14 192.0.2.0/33 64496|14 ::/129 none";

    const LIST: &str =
        "payloads=3\nasn=64496 prefix=192.0.2.0/24 max=26\nasn=0 prefix=198.51.100.0/24 max=32\nasn=64497 prefix=2001:0db8:0000:0000:0000:0000:0000:0000/32 max=48\n";

    #[test]
    fn routes_are_judged(rt: HostRuntime) {
        let mut entries = room();
        let mut list = PayloadList::new(&mut entries);
        assert!(rt; read(LIST.as_bytes(), &mut list).is_ok(), "the list");
        for case in JUDGED.split('|') {
            let mut words = case.split(' ');
            if let (Some(word), Some(route), Some(origin)) = (
                words.next(),
                words.next(),
                words.next(),
            ) {
                assert!(rt; word_of(&list, route, origin) == word, "{}", case);
            }
        }
    }
}
