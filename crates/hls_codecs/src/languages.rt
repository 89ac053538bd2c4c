//! The shortest code of a language (RFC 5646 section 2.2.1).

ghost use Rattle.std.specs.Prelude.{◌≡◌, ◌≤◌, bytes_eq, length, option_map, take};
ghost use Rattle.hls_codecs.specs.Texts.{language_rows, short_in};

/// ISO 639-2, both codes of a language where it has two, each with its code of ISO 639-1: five letters a row.
const ROWS: &[u8; 1020] =
    b"aaraaabkabafrafakaakalbsqamhamaraararganarmhyasmasavaavaveaeaymayazeazbakbabambmbaqeubelbebenbnbihbh\
bisbibodbobosbsbrebrbulbgburmycatcacescschachchecechizhchucuchvcvcorkwcoscocrecrcymcyczecsdandadeude\
divdvdutnldzodzellelengenepoeoesteteuseueweeefaofofasfafijfjfinfifrafrfrefrfryfyfulffgeokagerdeglagd\
glegaglgglglvgvgreelgrngngujguhaththauhahebheherhzhinhihmohohrvhrhunhuhyehyiboigiceisidoioiiiiiikuiu\
ileieinaiaindidipkikislisitaitjavjvjpnjakalklkanknkaskskatkakaukrkazkkkhmkmkikkikinrwkirkykomkvkonkg\
korkokuakjkurkulaololatlalavlvlimlilinlnlitltltzlblubluluglgmacmkmahmhmalmlmaomimarmrmaymsmkdmkmlgmg\
mltmtmonmnmrimimsamsmyamynaunanavnvnblnrndendndongnepnenldnlnnonnnobnbnornonyanyociocojiojoriorormom\
ossospanpaperfaplipipolplporptpuspsquequrohrmronrorumrorunrnrusrusagsgsansasinsislksksloskslvslsmese\
smosmsnasnsndsdsomsosotstspaessqisqsrdscsrpsrsswsssunsuswaswswesvtahtytamtatatttteltetgktgtgltlthath\
tibbotirtitontotsntntsotstuktkturtrtwitwuigugukrukurduruzbuzvenvevievivolvowelcywlnwawolwoxhoxhyidyi\
yoryozhazazhozhzulzu";

#[tactic(auto, unfolding(crate::specs::Texts::language_rows))]
fn language_rows() -> &'static [u8]
    ensures { result.now ≡ language_rows }
{
    ROWS.as_slice()
}

/// Whether a row begins with these letters.
fn begins_with(row: &[u8], letters: [u8; 3]) -> bool
    requires { 3 ≤ length row.now }
    ensures { result ≡ bytes_eq letters (take 3 row.now) }
{
    letters.as_slice() == &row[..3]
}

/// The code of two letters after these three in rows of five.
fn find_short(rows: &'static [u8], letters: [u8; 3]) -> Option<&'static [u8]>
    ensures { option_map (λ code. code.now) result ≡ short_in rows.now letters }
{
    let mut rest = rows;
    'rows: while rest.len() >= 5 {
        if begins_with(rest, letters) {
            return Some(&rest[3..5]);
        }
        rest = &rest[5..];
    }
    None
}

/// The code of two letters of a language, if it has one.
pub fn short_language(letters: [u8; 3]) -> Option<&'static [u8]>
    ensures { option_map (λ code. code.now) result ≡ short_in language_rows letters }
{
    find_short(language_rows(), letters)
}
