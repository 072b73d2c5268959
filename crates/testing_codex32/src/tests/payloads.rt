//! Strings of the elements of a payload.

use crate::tests::compare::same;
use crate::tests::shares::share;
use bech32_gf::gf32::Fe32;
use codex32::{EncodeError, Header, encode_payload, encode_payload_into};
use std::alloc::Global;
use std::process::Abort;

// Strings of BIP-93, in lower case: two shares and the secret of its second example, and a long
// one. Behind them one of each number of elements, at random, by a model of the definitions alone
// (vectors/).
const STRINGS: &[&str] = &[
    "ms12namea320zyxwvutsrqpnmlkjhgfedcaxrpp870hkkqrm",
    "ms12namecacdefghjklmnpqrstuvwxyz023ftr2gdzmpy6pn",
    "ms12names6xqguzttxkeqnjsjzv4jv3nz5k3kwgsphuh6evw",
    "ms100c8vsm32zxfguhpchtlupzry9x8gf2tvdw0s3jn54khce6mua7lqpzygsfjd6an074rxvcemlh8wu3tk925acdefghjklmnpqrstuvwxy06fhpv80undvarhrak",
    "ms18k89kfte82z8he8ydw72jj4d7yyr2x99xdpenxd6yrk5l",
    "ms15qdvcf5u9le2f9sk9qnp6rpuqq6gng3wzkvkw08lycl7g5f",
    "ms102y5ds7rk3tm4ejgq3zcq2h7p4kzq9nxzj8szrcpp4xwsmv5",
    "ms13uyllmtvfmfwarl6tnc7veumy76rm0q4k8zxvh6n7l6xenucez",
    "ms195dvt5swn0mtykftrd9f03c03gds5jujphkghxkv85pjz7ukj52",
    "ms160fgt0yzgx7pjt9gwmylck3pgrphqtafw7fysdygh6y6h5ek9skqq",
    "ms13qd4cdalk3huzsncma8czhqqkgdj4zhclgzvl4a8ny4c8xsc2pq6ves",
    "ms189w8rlk6lm333hhk3zprh2anpxgd6qds59vcdhdnvhdhe2wxhn64dd75",
    "ms18xhwxuqytl3j72v4pxtt3fu8pxryuxprryfwdrzj4mpl296jd07t94pr2p",
    "ms147ajt4xmvj8dfxantajxjhc6mke3q4sd99gulc5lnas0vq4hsm336dpvume",
    "ms10tun3syuy6ufft2kvwxwdel8fr78fnrleyk70vueu3whusn37ms6h3jpd73le",
    "ms14e6uqfxk80wpdalflpqjmhxgy6gmurc7g3lrk0378p8uqc57dtuv7cj4mzkmdl9",
    "ms1648x65hk9nc5fq7jv4apn7w7vf43gvakguwmz48dgfut4gqy87zzatwnvnm5qvgy",
    "ms14tgvgze77hcgkzjqqz2xppxymsc0k0w8rcce2a8np4c45e2f72x3cfqzhw03zrl4py",
    "ms15kt8ulw6lvyqa9zc686r80hf3wx5w68ztgay0q04dkkspefw6y6srgenmn50ghc0e07",
    "ms16lzt5usygkjqer8ea4mqpwat9cw03kx0nj8s5fw8tfct22args7gptuza7ua3wvwfc57u",
    "ms16s6peq9uz86zgqk3v7ut4frjf5ehacef7ss5mnc2830kszenp7gewa6nvuksz9zznxlly30",
    "ms1438e86vks2nsrcasauhx0cghu24hpf8zspdgm57edhqt4hrta0sjzn9pscumnwvv5sqnpx9n",
    "ms19crrkeyqax4089rpxd3hnh7tkuxlcuy4tvlqj5es9xjv7er6s6g9vdv6954p9us3qnmyl9u5xh",
    "ms10jur8snw69fueyky3rn8ve5070hgawt9tgy2llk0pzq0uuwfdvfs5a5rxf67qc7x7uuwp8gctz3",
    "ms10uhkjsrx4h2m8ftjclx9cw5hh49tkcqd5kxxdpg9u7y3xrjc90qhfy0ntvzru6angqgfe6ufrl2ea",
    "ms18ce36wdm8wtjueunsrh8n7gnp7hudrcl7pp6vagw6hw48cmh9z6e67kez3z2gkudx5855jetpa5e4dj",
    "ms18ljnqg9ewhszv699lev2sn53qh55ktauw7hpfx3a4gdpmq95keqkhh8e8u507apzssfwh45f8dzmy07t",
    "ms12dz9nhye9vnmccwrs824m892kxjaf3ff579g8mffrphpcnwcqnvp3ud4yw37fe6ry976kx323pg9l0kegm",
    "ms108qrhsen4jpa3pajkmd5plmfdehyfd5szz68al49v6dtgtkfdamlnj7y60eyl9q44navvkwpr8we657dc6p",
    "ms13pr49efpy7vdh5mmtpy86nzy3h77nfwjpvr8mrkqcq6huc9wqw7fgvt2cnzc2t28kl93wlcfpx9q0fxw7ltv6",
    "ms10fq8vsra8jt8pa3wdea09dusp938v3ungt6xpkye0ml7zqszvczlr3qguql7uqr8k4a8mqapktfdvlkj7gxhw7t",
    "ms103s4gsu2uz0xv6hl8haq30lmlm8kqv5h9sye8amcr3sgn85vs22rlk62zwld22kcq4w5edcp892gqf4yh3c5z75n",
    "ms10nusfs5497hvjt8canyzp4x5q4204a7r7jqjqu7eevfhxn90vktul2x9u5qhew9au8jfe0qnkkc39mkg5ngualyxal",
    "ms189epxhz8d8ajvh2s3nmj4wjcnr75utmfyheqldqsnvcltzq0x6erntfauhq4rf4kcy6lyn9l0aegguj2c3j8rtexs6wcmkgf8elsu2ggg3wt502w9u37pyumdz",
    "ms16ss6m6k2wt80qrm8p0434xe0fmlrstq9z56mr6w0wk6t8hmjshnkhyxp3lclwzd90f82tzlupr2exzqxuj0gyf83g9zv2r7a5x2sz2vel9tz2lupf0qjlmzge8e4",
];

// The numbers of elements that a payload has: those of 16 to 44 bytes, and of 63 and 64 (BIP-93).
const COUNTS: &[usize] = &[
    26, 28, 29, 31, 32, 34, 36, 37, 39, 40, 42, 44, 45, 47, 48, 50, 52, 53, 55, 56, 58, 60, 61, 63,
    64, 66, 68, 69, 71, 101, 103,
];

// Puts the elements of characters.
fn put(rt: &impl Abort, room: &mut [Fe32], characters: &str) {
    for (element, character) in room.iter_mut().zip(characters.chars()) {
        *element = Fe32::from_char(character).expect(rt, "an element");
    }
}

// Fails where a header and a payload do not put just a text into a buffer.
fn is_put(rt: &impl Abort, header: &Header, payload: &[Fe32], text: &str) {
    let mut buffer = [b'?'; 130];
    let count = encode_payload_into(&mut buffer, header, payload).expect(rt, text);
    let behind = [b'?'; 130];
    same(
        rt,
        &(buffer.get(..count), buffer.get(count..)),
        &(Some(text.as_bytes()), behind.get(count..)),
    );
}

// Fails where the header and the payload of a string do not give it again in both ways.
fn comes_again(rt: &impl Abort, alloc: Global, text: &str) {
    let share = share(rt, text);
    let mut room = [Fe32::Q; 103];
    put(rt, &mut room, share.payload());
    let payload = room.get(..share.payload().len()).expect(rt, text);
    let made = encode_payload(alloc, &share.header(), payload).expect(rt, text);
    same(rt, &made.as_str(), &text);
    is_put(rt, &share.header(), payload, text);
}

// Fails where a string is made of some elements, or put, or not for another reason than this; what
// is not put leaves the buffer as it was.
fn refuses(
    rt: &impl Abort,
    alloc: Global,
    header: &Header,
    payload: &[Fe32],
    want: Option<EncodeError>,
) {
    let mut buffer = [b'?'; 130];
    let put = encode_payload_into(&mut buffer, header, payload).err();
    let is_left = put.is_none() || buffer == [b'?'; 130];
    let made = encode_payload(alloc, header, payload).err();
    let found = (payload.len(), [made, put], is_left);
    same(rt, &found, &(payload.len(), [want, want], true));
}

// Whether a string may have this many elements.
fn is_taken(elements: usize) -> bool {
    for count in COUNTS {
        if *count == elements {
            return true;
        }
    }
    false
}

// Fails where a payload of another number of elements gives a string, or one of these gives none.
fn are_of_these_numbers(rt: &impl Abort, alloc: Global) {
    let header = Header::parse("2", "name", "s").expect(rt, "a header");
    let elements = [Fe32::L; 200];
    for count in 0..=elements.len() {
        let want = if is_taken(count) {
            None
        } else {
            Some(EncodeError::Size)
        };
        let payload = elements.get(..count).expect(rt, "elements");
        refuses(rt, alloc, &header, payload, want);
    }
}

#[test]
fn each_number_of_elements(rt: HostRuntime) {
    for text in STRINGS {
        comes_again(&rt, rt.alloc(), text);
    }
    are_of_these_numbers(&rt, rt.alloc());
}
