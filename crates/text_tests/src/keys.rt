//! Keys of words in many scripts, against those that Python's tables give, and characters of words.

use crate::rows::{compare, key_text};
use ct_base::Memory;
use std::alloc::Global;
use std::test::Fail;
use tx_chars::{is_digit, is_word, key};

/// On each line a word, its key, its key with the base letters alone, and its key in upper and lower case. The lines are
/// written by `checks/keys --print`, and `checks/keys` compares them with Python's tables.
static WORDS: &str = "\
Straße|strasse|strasse|Straße\n\
STRASSE|strasse|strasse|STRASSE\n\
GROẞE|grosse|grosse|GROẞE\n\
Über|über|uber|Über\n\
Ärger|ärger|arger|Ärger\n\
café|café|cafe|café\n\
CAFÉ|café|cafe|CAFÉ\n\
naïve|naïve|naive|naïve\n\
İstanbul|i̇stanbul|istanbul|İstanbul\n\
Iğdır|iğdır|igdır|Iğdır\n\
ısı|ısı|ısı|ısı\n\
Çeşme|çeşme|cesme|Çeşme\n\
Łódź|łódź|łodz|Łódź\n\
żółć|żółć|zołc|żółć\n\
Đặng|đặng|đang|Đặng\n\
Nguyễn|nguyễn|nguyen|Nguyễn\n\
Việt|việt|viet|Việt\n\
cœur|cœur|cœur|cœur\n\
Ærø|ærø|ærø|Ærø\n\
Ŭ|ŭ|u|Ŭ\n\
ŉ|ʼn|ʼn|ŉ\n\
ǰ|ǰ|j|ǰ\n\
ﬃ|ffi|ffi|ﬃ\n\
Ὀδυσσεύς|ὀδυσσεύσ|οδυσσευσ|Ὀδυσσεύς\n\
ΟΔΥΣΣΕΥΣ|οδυσσευσ|οδυσσευσ|ΟΔΥΣΣΕΥΣ\n\
σοφός|σοφόσ|σοφοσ|σοφός\n\
Σίσυφος|σίσυφοσ|σισυφοσ|Σίσυφος\n\
ΰ|ΰ|υ|ΰ\n\
ΐ|ΐ|ι|ΐ\n\
ᾳ|αι|αι|ᾳ\n\
ᾼ|αι|αι|ᾼ\n\
ᾷ|ᾶι|αι|ᾷ\n\
ᾟ|ἧι|ηι|ᾟ\n\
ῼ|ωι|ωι|ῼ\n\
Ελλάδα|ελλάδα|ελλαδα|Ελλάδα\n\
ΆΓΙΟΣ|άγιοσ|αγιοσ|ΆΓΙΟΣ\n\
Ὦ|ὦ|ω|Ὦ\n\
Москва|москва|москва|Москва\n\
МОСКВА|москва|москва|МОСКВА\n\
ёлка|ёлка|елка|ёлка\n\
Ёлка|ёлка|елка|Ёлка\n\
Київ|київ|киів|Київ\n\
їжак|їжак|іжак|їжак\n\
Србија|србија|србија|Србија\n\
Ѓорѓи|ѓорѓи|горги|Ѓорѓи\n\
Ўзбек|ўзбек|узбек|Ўзбек\n\
ҐАНОК|ґанок|ґанок|ҐАНОК\n\
Հայաստան|հայաստան|հայաստան|Հայաստան\n\
ՀԱՅԱՍՏԱՆ|հայաստան|հայաստան|ՀԱՅԱՍՏԱՆ\n\
Երևան|երեւան|երեւան|Երևան\n\
եւ|եւ|եւ|եւ\n\
և|եւ|եւ|և\n\
բառ|բառ|բառ|բառ\n\
ԲԱՌ|բառ|բառ|ԲԱՌ\n\
ﬓ|մն|մն|ﬓ\n\
Արարատ|արարատ|արարատ|Արարատ\n\
գիրք|գիրք|գիրք|գիրք\n\
თბილისი|თბილისი|თბილისი|თბილისი\n\
ᲗᲑᲘᲚᲘᲡᲘ|თბილისი|თბილისი|ᲗᲑᲘᲚᲘᲡᲘ\n\
საქართველო|საქართველო|საქართველო|საქართველო\n\
წიგნი|წიგნი|წიგნი|წიგნი\n\
ჰაერი|ჰაერი|ჰაერი|ჰაერი\n\
ᲰᲐᲔᲠᲘ|ჰაერი|ჰაერი|ᲰᲐᲔᲠᲘ\n\
ქალაქი|ქალაქი|ქალაქი|ქალაქი\n\
მთა|მთა|მთა|მთა\n\
ზღვა|ზღვა|ზღვა|ზღვა\n\
Ⴀბგ|ⴀბგ|ⴀბგ|Ⴀბგ\n\
שלום|שלום|שלום|שלום\n\
ספר|ספר|ספר|ספר\n\
שָׁלוֹם|שָׁלוֹם|שלום|שָׁלוֹם\n\
יְרוּשָׁלַיִם|יְרוּשָׁלַיִם|ירושלים|יְרוּשָׁלַיִם\n\
עברית|עברית|עברית|עברית\n\
מילה|מילה|מילה|מילה\n\
תוֹרָה|תוֹרָה|תורה|תוֹרָה\n\
בַּיִת|בַּיִת|בית|בַּיִת\n\
שׂ|שׂ|ש|שׂ\n\
כָּל|כָּל|כל|כָּל\n\
كتاب|كتاب|كتاب|كتاب\n\
مَكْتَبَة|مَكْتَبَة|مكتبة|مَكْتَبَة\n\
القرآن|القرآن|القران|القرآن\n\
آدم|آدم|ادم|آدم\n\
سؤال|سؤال|سوال|سؤال\n\
مدرسة|مدرسة|مدرسة|مدرسة\n\
١٢٣|١٢٣|١٢٣|١٢٣\n\
لغة|لغة|لغة|لغة\n\
ۀ|ۀ|ە|ۀ\n\
شمسٌ|شمسٌ|شمس|شمسٌ\n\
ܫܠܡܐ|ܫܠܡܐ|ܫܠܡܐ|ܫܠܡܐ\n\
ܟܬܒܐ|ܟܬܒܐ|ܟܬܒܐ|ܟܬܒܐ\n\
ܡܠܟܐ|ܡܠܟܐ|ܡܠܟܐ|ܡܠܟܐ\n\
ܐܪܡܝܐ|ܐܪܡܝܐ|ܐܪܡܝܐ|ܐܪܡܝܐ\n\
ܣܘܪܝܝܐ|ܣܘܪܝܝܐ|ܣܘܪܝܝܐ|ܣܘܪܝܝܐ\n\
ܡܶܠܬ݂ܳܐ|ܡܶܠܬ݂ܳܐ|ܡܠܬܐ|ܡܶܠܬ݂ܳܐ\n\
हिन्दी|हिन्दी|हिनदी|हिन्दी\n\
नमस्ते|नमस्ते|नमसत|नमस्ते\n\
क़लम|क़लम|कलम|क़लम\n\
किताब|किताब|किताब|किताब\n\
भारत|भारत|भारत|भारत\n\
ज़मीन|ज़मीन|जमीन|ज़मीन\n\
पढ़ना|पढ़ना|पढना|पढ़ना\n\
संस्कृत|संस्कृत|ससकत|संस्कृत\n\
१२३|१२३|१२३|१२३\n\
ऩ|ऩ|न|ऩ\n\
বাংলা|বাংলা|বাংলা|বাংলা\n\
বই|বই|বই|বই\n\
ঢাকা|ঢাকা|ঢাকা|ঢাকা\n\
কোলকাতা|কোলকাতা|কোলকাতা|কোলকাতা\n\
পড়া|পড়া|পডা|পড়া\n\
যায়|যায়|যায|যায়\n\
মৌমাছি|মৌমাছি|মৌমাছি|মৌমাছি\n\
১২|১২|১২|১২\n\
ভাষা|ভাষা|ভাষা|ভাষা\n\
রাত|রাত|রাত|রাত\n\
ਪੰਜਾਬੀ|ਪੰਜਾਬੀ|ਪਜਾਬੀ|ਪੰਜਾਬੀ\n\
ਖ਼ਬਰ|ਖ਼ਬਰ|ਖਬਰ|ਖ਼ਬਰ\n\
ਸ਼ਹਿਰ|ਸ਼ਹਿਰ|ਸਹਿਰ|ਸ਼ਹਿਰ\n\
ਕਿਤਾਬ|ਕਿਤਾਬ|ਕਿਤਾਬ|ਕਿਤਾਬ\n\
ਜ਼ਮੀਨ|ਜ਼ਮੀਨ|ਜਮੀਨ|ਜ਼ਮੀਨ\n\
தமிழ்|தமிழ்|தமிழ|தமிழ்\n\
புத்தகம்|புத்தகம்|புததகம|புத்தகம்\n\
கொடு|கொடு|கொடு|கொடு\n\
கோயில்|கோயில்|கோயில|கோயில்\n\
கௌரவம்|கௌரவம்|கௌரவம|கௌரவம்\n\
மொழி|மொழி|மொழி|மொழி\n\
நன்றி|நன்றி|நனறி|நன்றி\n\
சென்னை|சென்னை|செனனை|சென்னை\n\
பௌர்ணமி|பௌர்ணமி|பௌரணமி|பௌர்ணமி\n\
யாழ்|யாழ்|யாழ|யாழ்\n\
తెలుగు|తెలుగు|తలుగు|తెలుగు\n\
పుస్తకం|పుస్తకం|పుసతకం|పుస్తకం\n\
కృష్ణ|కృష్ణ|కృషణ|కృష్ణ\n\
భాష|భాష|భష|భాష\n\
నీరు|నీరు|నరు|నీరు\n\
ಕನ್ನಡ|ಕನ್ನಡ|ಕನನಡ|ಕನ್ನಡ\n\
ಕೋಟೆ|ಕೋಟೆ|ಕೂೕಟ|ಕೋಟೆ\n\
ಪುಸ್ತಕ|ಪುಸ್ತಕ|ಪುಸತಕ|ಪುಸ್ತಕ\n\
ಕೊಡು|ಕೊಡು|ಕೂಡು|ಕೊಡು\n\
ಮೀನು|ಮೀನು|ಮೕನು|ಮೀನು\n\
മലയാളം|മലയാളം|മലയാളം|മലയാളം\n\
കൊടി|കൊടി|കൊടി|കൊടി\n\
കോഴി|കോഴി|കോഴി|കോഴി\n\
സൗഖ്യം|സൗഖ്യം|സൗഖയം|സൗഖ്യം\n\
പുസ്തകം|പുസ്തകം|പസതകം|പുസ്തകം\n\
සිංහල|සිංහල|සංහල|සිංහල\n\
පොත|පොත|පොත|පොත\n\
කෝච්චිය|කෝච්චිය|කොචචය|කෝච්චිය\n\
ගෞරවය|ගෞරවය|ගෞරවය|ගෞරවය\n\
ලංකාව|ලංකාව|ලංකාව|ලංකාව\n\
ภาษาไทย|ภาษาไทย|ภาษาไทย|ภาษาไทย\n\
หนังสือ|หนังสือ|หนงสอ|หนังสือ\n\
น้ำ|น้ำ|นำ|น้ำ\n\
กรุงเทพ|กรุงเทพ|กรงเทพ|กรุงเทพ\n\
๑๒๓|๑๒๓|๑๒๓|๑๒๓\n\
ລາວ|ລາວ|ລາວ|ລາວ\n\
ປຶ້ມ|ປຶ້ມ|ປມ|ປຶ້ມ\n\
ນ້ຳ|ນ້ຳ|ນຳ|ນ້ຳ\n\
ວຽງຈັນ|ວຽງຈັນ|ວຽງຈນ|ວຽງຈັນ\n\
ໜັງສື|ໜັງສື|ໜງສ|ໜັງສື\n\
བོད་|བོད་|བད་|བོད་\n\
ལྷ་ས|ལྷ་ས|ལ་ས|ལྷ་ས\n\
གཱ|གཱ|ག|གཱ\n\
ཀྵ|ཀྵ|ཀ|ཀྵ\n\
རྒྱ|རྒྱ|ར|རྒྱ\n\
မြန်မာ|မြန်မာ|မြနမာ|မြန်မာ\n\
ဦး|ဦး|ဥး|ဦး\n\
စာအုပ်|စာအုပ်|စာအပ|စာအုပ်\n\
၁၂၃|၁၂၃|၁၂၃|၁၂၃\n\
ရန်ကုန်|ရန်ကုန်|ရနကန|ရန်ကုန်\n\
ខ្មែរ|ខ្មែរ|ខមែរ|ខ្មែរ\n\
សៀវភៅ|សៀវភៅ|សៀវភៅ|សៀវភៅ\n\
ភ្នំពេញ|ភ្នំពេញ|ភនពេញ|ភ្នំពេញ\n\
ទឹក|ទឹក|ទក|ទឹក\n\
១២៣|១២៣|១២៣|១២៣\n\
한국어|한국어|한국어|한국어\n\
서울|서울|서울|서울\n\
각|각|각|각\n\
값|값|값|값\n\
뷁|뷁|뷁|뷁\n\
ひらがな|ひらがな|ひらかな|ひらがな\n\
がっこう|がっこう|かっこう|がっこう\n\
ぱん|ぱん|はん|ぱん\n\
ゔ|ゔ|う|ゔ\n\
とうきょう|とうきょう|とうきょう|とうきょう\n\
カタカナ|カタカナ|カタカナ|カタカナ\n\
ガラス|ガラス|カラス|ガラス\n\
パン|パン|ハン|パン\n\
ヴァイオリン|ヴァイオリン|ウァイオリン|ヴァイオリン\n\
ﾊﾟﾝ|ﾊﾟﾝ|ﾊﾟﾝ|ﾊﾟﾝ\n\
日本語|日本語|日本語|日本語\n\
漢字|漢字|漢字|漢字\n\
中文|中文|中文|中文\n\
豈|豈|豈|豈\n\
神|神|神|神\n\
አማርኛ|አማርኛ|አማርኛ|አማርኛ\n\
መጽሐፍ|መጽሐፍ|መጽሐፍ|መጽሐፍ\n\
፩፪፫|፩፪፫|፩፪፫|፩፪፫\n\
ኢትዮጵያ|ኢትዮጵያ|ኢትዮጵያ|ኢትዮጵያ\n\
ᏣᎳᎩ|ᏣᎳᎩ|ᏣᎳᎩ|ᏣᎳᎩ\n\
ꮳꮃꭹ|ᏣᎳᎩ|ᏣᎳᎩ|ꮳꮃꭹ\n\
Ꮳꮃꭹ|ᏣᎳᎩ|ᏣᎳᎩ|Ꮳꮃꭹ\n\
ᏸ|Ᏸ|Ᏸ|ᏸ\n\
Ᏸ|Ᏸ|Ᏸ|Ᏸ\n\
𐐔𐐯𐑅𐐨𐑉𐐯𐐻|𐐼𐐯𐑅𐐨𐑉𐐯𐐻|𐐼𐐯𐑅𐐨𐑉𐐯𐐻|𐐔𐐯𐑅𐐨𐑉𐐯𐐻\n\
𐐀𐐁|𐐨𐐩|𐐨𐐩|𐐀𐐁\n\
𐐨𐐩|𐐨𐐩|𐐨𐐩|𐐨𐐩\n\
𞤀𞤣𞤤𞤢𞤥|𞤢𞤣𞤤𞤢𞤥|𞤢𞤣𞤤𞤢𞤥|𞤀𞤣𞤤𞤢𞤥\n\
𞤸𞤢𞤤𞤢|𞤸𞤢𞤤𞤢|𞤸𞤢𞤤𞤢|𞤸𞤢𞤤𞤢\n\
Ⲙⲉⲧⲣⲉⲙⲛⲭⲏⲙⲓ|ⲙⲉⲧⲣⲉⲙⲛⲭⲏⲙⲓ|ⲙⲉⲧⲣⲉⲙⲛⲭⲏⲙⲓ|Ⲙⲉⲧⲣⲉⲙⲛⲭⲏⲙⲓ\n\
ⲀⲂⲄ|ⲁⲃⲅ|ⲁⲃⲅ|ⲀⲂⲄ\n\
ⲁⲃⲅ|ⲁⲃⲅ|ⲁⲃⲅ|ⲁⲃⲅ\n\
i̇|i̇|i|i̇\n\
I\u{307}|i̇|i|İ\n\
İıIi|i̇ıii|iıii|İıIi\n\
ςσΣ|σσσ|σσσ|ςσΣ\n\
한국|한국|한국|한국\n\
한|한|한|한\n\
각|각|각|각\n\
ᄀ|ᄀ|ᄀ|ᄀ\n\
ᆨ|ᆨ|ᆨ|ᆨ\n\
c\u{301}\u{327}|ḉ|c|ḉ\n\
a\u{323}\u{302}\u{301}|ậ́|a|ậ́\n\
o\u{302}\u{323}|ộ|o|ộ\n\
q\u{307}\u{323}|q̣̇|q|q̣̇\n\
a\u{301}\u{300}|á̀|a|á̀\n\
ש\u{5c1}\u{5bc}|שּׁ|ש|שּׁ\n\
α\u{345}|αι|αι|ᾳ\n\
\u{345}|ι|ι|\u{345}\n\
α\u{345}\u{301}|άι|αι|ᾴ\n\
α\u{301}\u{345}|άι|αι|ᾴ\n\
ᾳ\u{301}|άι|αι|ᾴ\n\
Α\u{345}|αι|αι|ᾼ\n\
ΐ|ΐ|ι|ΐ\n\
ΰ|ΰ|υ|ΰ\n\
ᾷ|ᾶι|αι|ᾷ\n\
ῇ|ῆι|ηι|ῇ\n\
ﬃ|ffi|ffi|ﬃ\n\
ﬄ|ffl|ffl|ﬄ\n\
ẖ|ẖ|h|ẖ\n\
ὒ|ὒ|υ|ὒ\n\
क़|क़|क|क़\n\
ড়|ড়|ড|ড়\n\
יִ|יִ|י|יִ\n\
⫝̸|⫝̸|⫝|⫝̸\n\
Å|å|a|Å\n\
Ω|ω|ω|Ω\n\
K|k|k|K\n\
\u{301}|\u{301}||\u{301}\n\
\u{300}\u{323}|\u{323}\u{300}||\u{323}\u{300}\n\
\u{5bc}|\u{5bc}||\u{5bc}\n\
\u{64b}\u{651}|\u{64b}\u{651}||\u{64b}\u{651}\n\
\u{e31}|\u{e31}||\u{e31}\n\
\u{20d0}|\u{20d0}||\u{20d0}\n\
का|का|का|का\n\
a⃝|a⃝|a⃝|a⃝\n\
aÉÉÉÉÉÉÉÉÉÉÉÉÉÉÉÉÉÉÉÉÉÉÉÉÉÉÉÉÉÉÉÉÉÉÉÉÉÉÉÉÉÉÉÉÉÉÉÉÉÉÉÉÉÉÉÉÉÉÉÉÉÉÉÉÉÉÉÉÉÉÉÉÉÉÉÉÉÉÉÉÉÉÉÉÉÉÉÉÉÉÉÉÉÉÉÉÉÉÉÉÉÉÉÉÉÉÉÉÉÉÉÉÉÉÉÉÉÉÉÉÉÉÉÉÉÉÉÉÉÉ|aééééééééééééééééééééééééééééééééééééééééééééééééééééééééééééééééééééééééééééééééééééééééééééééééééééééééééééééééééééééééééééééé|aeeeeeeeeeeeeeeeeeeeeeeeeeeeeeeeeeeeeeeeeeeeeeeeeeeeeeeeeeeeeeeeeeeeeeeeeeeeeeeeeeeeeeeeeeeeeeeeeeeeeeeeeeeeeeeeeeeeeeeeeeeeeeeeeee|aÉÉÉÉÉÉÉÉÉÉÉÉÉÉÉÉÉÉÉÉÉÉÉÉÉÉÉÉÉÉÉÉÉÉÉÉÉÉÉÉÉÉÉÉÉÉÉÉÉÉÉÉÉÉÉÉÉÉÉÉÉÉÉÉÉÉÉÉÉÉÉÉÉÉÉÉÉÉÉÉÉÉÉÉÉÉÉÉÉÉÉÉÉÉÉÉÉÉÉÉÉÉÉÉÉÉÉÉÉÉÉÉÉÉÉÉÉÉÉÉÉÉÉÉÉÉÉ\n\
";

/// Characters, whether they stand in words, and whether they are decimal digits: of each kind of letters, numbers and marks
/// one, and some that are neither.
static CHARACTERS: [(char, bool, bool); 22] = [
    ('A', true, false),
    ('\u{e9}', true, false),
    ('\u{1c5}', true, false),
    ('\u{2b0}', true, false),
    ('\u{6f22}', true, false),
    ('\u{301}', true, false),
    ('\u{903}', true, false),
    ('\u{20dd}', false, false),
    ('7', true, true),
    ('\u{663}', true, true),
    ('\u{ff17}', true, true),
    ('\u{1d7d7}', true, true),
    ('\u{2167}', true, false),
    ('\u{bd}', true, false),
    ('\u{b2}', true, false),
    ('_', false, false),
    ('-', false, false),
    ('\u{ad}', false, false),
    ('\u{200d}', false, false),
    ('\u{20ac}', false, false),
    ('\u{1f600}', false, false),
    ('\u{3000}', false, false),
];

/// The fields of a line.
fn fields(line: &str) -> Option<(&str, &str, &str, &str)> {
    let (word, rest) = line.split_once('|')?;
    let (lower, rest) = rest.split_once('|')?;
    let (bare, mixed) = rest.split_once('|')?;
    Some((word, lower, bare, mixed))
}

/// What a key of a word is made by: whether it has the base letters alone, and whether it keeps case.
type Form = (bool, bool);

/// Each form by which a line has a key, in the order of its fields.
const FORMS: &[Form] = &[(false, false), (true, false), (false, true)];

/// The word of a line, and its key in this form.
fn word_and_key(line: &str, form: Form) -> Option<(&str, &str)> {
    let (word, lower, bare, mixed) = fields(line)?;
    match form {
        (true, _) => Some((word, bare)),
        (false, true) => Some((word, mixed)),
        (false, false) => Some((word, lower)),
    }
}

/// The words that have other keys in this form than their lines say.
fn wrong_keys(alloc: Global, form: Form) -> Result<String, Memory> {
    let mut wrong = String::new(alloc);
    for line in WORDS.lines() {
        let (word, wanted) = word_and_key(line, form).unwrap_or((line, "four fields"));
        let found = key(alloc, word, form.0, form.1)?;
        compare(alloc, &mut wrong, word, key_text(found.as_slice()), wanted)?;
    }
    Ok(wrong)
}

#[test]
fn keys_of_words(rt: HostRuntime) -> Result<(), Fail> {
    for form in FORMS {
        let wrong = wrong_keys(rt.alloc(), *form)?;
        assert_eq!(rt; wrong.as_str(), "");
    }
    Ok(())
}

/// Characters, and how long the key of 300 of them is: keys that are cut in ASCII, and in the midst of characters of two, three and
/// four bytes, before and after they are folded.
const REPEATED: &[(char, usize)] = &[
    ('A', 255),
    ('é', 254),
    ('€', 255),
    ('😀', 252),
    ('ß', 255),
    ('ﬃ', 255),
    ('ẞ', 255),
];

pub(crate) fn repeated(alloc: Global, c: char, times: usize) -> Result<String, Memory> {
    let mut text = String::new(alloc);
    for _ in 0..times {
        text.push(c)?;
    }
    Ok(text)
}

fn key_length(alloc: Global, c: char) -> Result<usize, Memory> {
    let text = repeated(alloc, c, 300)?;
    let key = key(alloc, text.as_str(), false, false)?;
    Ok(key.as_slice().len())
}

#[test]
fn long_texts(rt: HostRuntime) -> Result<(), Fail> {
    for (c, length) in REPEATED {
        assert_eq!(rt; key_length(rt.alloc(), *c)?, *length, "of {c}");
    }
    Ok(())
}

#[test]
fn characters_of_words(rt: HostRuntime) {
    for (c, in_words, digit) in &CHARACTERS {
        assert_eq!(rt;
            (is_word(*c), is_digit(*c)),
            (*in_words, *digit),
            "of {c:?}"
        );
    }
}
