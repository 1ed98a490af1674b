//! Grease and sends over listed words and over seeds, of an independent model.

/// One call of `grease_the_joint` over words: all that are taken, and the one that follows.
pub struct Grease {
    pub words: &'static [u32],
    pub spelling: &'static [u8],
}

/// One call of `send_to` over such words.
pub struct Send {
    pub words: &'static [u32],
    /// Command and metadata, as a stanza without a body.
    pub header: &'static [u8],
    pub body: &'static [u8],
    pub text: &'static [u8],
}

/// Calls over `ChaCha20Rng` of this seed, the word that follows, and the text of all.
pub struct Seeded {
    pub seed: &'static str,
    pub calls: u8,
    pub next: u32,
    pub text: &'static [u8],
}

const GREASES: &[Grease] = &[
    Grease {
        words: &[0, 0, 0, 0, 1381832806],
        spelling: b"-> !-grease\n\n",
    },
    Grease {
        words: &[8, 94, 5, 100, 290630454],
        spelling: b"-> !-grease\n\n",
    },
    Grease {
        words: &[
            4294967295, 4294967295, 4294967295, 4294967295, 4294967295, 4294967295, 4294967295,
            4294967295, 4294967295, 4294967295, 4294967295, 4294967295, 4294967295, 4294967295,
            4294967295, 4294967295, 4294967295, 4294967295, 4294967295, 4294967295, 4294967295,
            4294967295, 4294967295, 4294967295, 4294967295, 4294967295, 4294967295, 4294967295,
            4294967295, 4294967295, 4294967295, 4294967295, 4294967295, 4294967295, 4294967295,
            4294967295,
        ],
        spelling: b"-> JJJJJJJJ-grease\n////////////////////////////////////////////////////////////////\n//////////////////////////////////////////////////////////////8\n",
    },
    Grease {
        words: &[
            7, 93, 93, 93, 93, 93, 93, 93, 93, 4, 0, 0, 7, 1, 1, 1, 1, 1, 1, 1, 1, 8, 2, 15, 3, 3,
            3, 3, 3, 3, 3, 3, 99, 50462976, 117835012, 185207048, 252579084, 319951120, 387323156,
            454695192, 522067228, 589439264, 656811300, 724183336, 791555372, 858927408, 926299444,
            993671480, 1061043516, 1128415552, 1195787588, 1263159624, 1330531660, 1397903696,
            1465275732, 1532647768, 1600019804, 1667391840, 2701061950,
        ],
        spelling: b"-> ~~~~~~~~-grease ! \"\"\"\"\"\"\"\" # $$$$$$$$\nAAECAwQFBgcICQoLDA0ODxAREhMUFRYXGBkaGxwdHh8gISIjJCUmJygpKissLS4v\nMDEyMzQ1Njc4OTo7PD0+P0BBQkNERUZHSElKS0xNTk9QUVJTVFVWV1hZWltcXV5f\nYGFi\n",
    },
    Grease {
        words: &[
            3827987603, 2401458236, 3882377145, 437513658, 3075184597, 1825228207, 363818564,
            1542342006, 1369847907, 1679417989, 388697726, 2037458945, 2440204049, 3335372136,
            1996625639, 145265401, 2140351263, 718008769,
        ],
        spelling: b"-> %R[h-grease a(n30 =<\nHw\n",
    },
    Grease {
        words: &[
            3262691933, 311315767, 3888497495, 1289433638, 647763409, 1802286011, 1295499432,
            206402397, 1146421277, 198415327, 941519645, 3695278848, 4272374686, 345404878,
            2668520040, 3626355084, 1627238111, 4086232447, 1455814728, 3164538597, 1926291540,
            2352200402, 3888981346, 2631171180,
        ],
        spelling: b"-> r\\-*Jq-grease BJ+S}' fze63\nYiU\n",
    },
    Grease {
        words: &[
            3144490161, 1679703521, 3600078073, 1413130163, 2465969383, 2450246164, 2670770899,
            2308495931, 77618845, 2732329472, 2962584733, 3794601032, 3875495759, 1065760736,
            1773779986, 2761027322, 4026578434, 2227798893, 3649351726, 818160403, 1298854890,
            3721084322,
        ],
        spelling: b"-> Fv-grease UDBFmr)< q k6c\n6vNq\n",
    },
    Grease {
        words: &[
            1241557833, 2038400055, 2781092847, 1127285792, 2797168978, 1483665834, 86234038,
            2680983086, 231860419, 330847389, 901537988, 1354297096, 847764064, 409760004,
            3101410120, 4215821838,
        ],
        spelling: b"-> |,-grease )E_ (_w]\nSMPbuA\n",
    },
    Grease {
        words: &[
            3888147902, 1293581897, 803731422, 3356290389, 140464903, 3443280036, 1251930745,
            1412095362, 2819979512, 396775460, 3822698298, 2045304856, 3179916331, 2753046305,
            4207018238, 64872553, 1134496541, 1196613293, 521449705, 3093565319, 3551060304,
            4139096972,
        ],
        spelling: b"-> T;vNa2)-grease 1=.^1 .^\nhw9kuFA\n",
    },
    Grease {
        words: &[
            2643817380, 3849613466, 1595493505, 300521255, 1588441229, 1786596429, 1655310768,
            2857133236, 428228409, 650097610, 2709083320, 3001786035, 2710225762, 1601111049,
            522120166, 4132489878, 1088907806, 3014005187, 2405781511, 644794026, 1364676635,
            818656884, 1991068972, 1082062244, 333686247, 198852807, 3572659575, 3761489388,
            776279958, 2044017402, 608993202, 1986226024, 3544343970, 2496192972, 493150927,
            1081571393, 3024799823, 3445333450,
        ],
        spelling: b"-> g0\\z~-grease D#?~{ q; |@wTkmM\nx0DaC3d18tTsxTPglhdFLvo61Xmyf0wkaGdjdqJlQtPM4ciUz+JkHUF4d0BPyEo\n",
    },
    Grease {
        words: &[
            988130542, 2156226753, 1579536268, 1533850176, 2623324113, 804091200, 2792086470,
            284326121, 1669204789, 2410449841, 4289369756, 2342486237, 1293985797, 4134164708,
            3088414815, 2142466817, 2504143250, 2492024244, 311419999, 1100146782, 3412826991,
            302030634, 1881520152, 4270788547, 2715133076, 2150523632, 716652390, 1682972762,
            1305482938, 3738629372, 970798870, 2175503348, 1990102926, 919389386, 474088224,
            691270258, 1667691981, 1865631270, 3966520142, 1051305645, 2630453579, 4123129073,
            1883635300, 3885172952, 2101494197,
        ],
        spelling: b"-> N?'@cU|-grease /B [h2m5d ,qodI}Y CuU\njo+edsrEzDYgA0IccvIzKc31ZmMmRjNvTkts7K2mqT5Licmc8fTB9WT+RXDYCJPn\n\n",
    },
    Grease {
        words: &[
            3971652443, 3270370342, 3017063057, 2871635701, 2625894746, 1123171377, 1334923732,
            1076432603, 1140635887, 2122997105, 879134047, 273728765, 1615626650, 3771284430,
            1391475049, 1373296479, 4210948949, 2522495081, 3892929601, 707224944, 384994917,
            1365046456, 2505563976, 2371029544, 2481250505, 2517748822, 169975813, 1915273615,
            851605641, 2606129627, 4000993579,
        ],
        spelling: b"-> qP|O-grease `@Xr. -&\"\naThalkFkCehwZScqZY7yFrj0XFFI31eVKApTjcng5JNWzBGWBaAhCo/BKHKJeMIy\n2w\n",
    },
    Grease {
        words: &[
            3849831266, 553378508, 2906802496, 2554250423, 1372485726, 1155199059, 3422959165,
            1018059793, 760599741, 1095669601, 1761352395, 201491852, 2812119066, 558211368,
            1865738396, 2990471567, 2515743355, 1293532311, 3663924750, 3014166257, 179690353,
            3557243827, 3334153628, 2277341091, 4264380319, 1678216301, 573518916, 510636459,
            4214082500, 2421257968, 3201305738, 279536111, 4242258295, 2964993089, 1494528341,
            1395728481,
        ],
        spelling: b"-> Gmp-grease 4@ZX\njIUCDBqInacooUUhnOg0b4/5PrJ7MvOVl7wZTQ4OY9rxhqizcdu1CrM7B9ScJbvG\no3e9h59HLf5tjAdkRDQvIquxbx7Eyy378HZRkIoM0L7vYakQd7nb/EE0urBVsRQ\n",
    },
    Grease {
        words: &[
            2765720641, 434941948, 3763252249, 2115017666, 335509622, 4245019337, 1324568470,
            906629972, 843030510, 353737876, 4217756517, 1934998400, 284659896, 27453112,
            946471360, 3129718040, 2179880088, 1610070541, 578657620, 825642066, 718604849,
            3047306427, 2942950794, 1445162447, 1419225658, 2396011753, 3570896209, 3775772383,
            634014564, 3440616301, 148324466, 1215877738, 3049738114, 785636007, 3312692684,
            3463212153, 1917811267, 407397407,
        ],
        spelling: b"-> !F-grease 2ycau2C\nuOaiAcABajgYtYu6mFTugQ26919UnX0iUkw2MTEK1Sq7NKK1it1pr89tI1Y6qpdU\n6TzQjlGN19Tftg3hZEvKJW2jE81yQNcIatJ4SIJPx7Wn2tMuzK1zxXlsbM5Dek9y\n\n",
    },
    Grease {
        words: &[
            1748589744, 255906926, 3702435259, 2465152337, 1041317950, 373483784, 713280170,
            729402487, 739225760, 3640132297, 3319115367, 1346248666, 4117763877, 2303334755,
            311147055, 3355329234, 3236372064, 1061061961, 1746744637, 1137385365, 485462198,
            1891172377, 650631076, 2401574050, 3418635534, 724510337, 3268758597, 4246667978,
            101002683, 1789406533, 3146561165, 602898967, 2432119189, 1698605792, 2479956980,
            1016478404, 556271185, 4100684775, 4268600302, 860937968, 982759433, 1957952395,
            4150793957, 1481428483, 1401144108, 2376444474, 731986172, 1154834130, 387277369,
            3640185439, 2626315066, 1316128967, 2263584288,
        ],
        spelling: b"-> +-grease Sg xo` ?b6&q%4h M(3+-j\nygIf/bstBQZFLahqjbaMuxeC7yOVMfeQ4Ko+ZfQj0ZPEOpY8UQYoIed7a/Tuq23+\n8N5QMwm4kzqL+7N05RZo9wPOTFgsw4NTOqqljfw4oSvSXtVEOWIVF1/S+Ng6Y4qc\nxw\n",
    },
    Grease {
        words: &[
            31513282, 2480726459, 1438585634, 3514099726, 3767689796, 3158495791, 100202135,
            784614291, 996883822, 3305368301, 1757960387, 1411980047, 2168284734, 4049433488,
            3496276596, 1578003611, 710904347, 1896193772, 2851542786, 3335514505, 2851323110,
            2613879128, 3058659474, 3915311280, 1693896098, 2837287352, 3477416866, 341398954,
            2762448332, 1175345026, 1345942574, 1199858865, 882364497, 2993143331, 2382355134,
            2610893404, 1612646375, 522850309, 3524168830, 1558682339,
        ],
        spelling: b"-> \"O]-grease 0T%V8@s_\nm2wOXhuKXyrsngVxAhf3qYnpz8bmvPOpWKHMm5JwT7aw6F7pos32ZLiRHamiK0XP\nqlVZFMydp6SCVw5GLnQ5ULFkhEdR0Jc0I75nsr7a/41cEp+b5wcfYAUQKh9+jA7S\n\n",
    },
    Grease {
        words: &[
            3891284813, 2483775225, 3406813794, 2758373550, 223795586, 1400133046, 3935418852,
            246240585, 4232417732, 2109769270, 53347740, 2700498635, 4089467035, 3920687844,
            3573785791, 3978827305, 1991549921, 2956435729,
        ],
        spelling: b"-> byM+G!-grease\nNobAfZwFLgPLVvagm1DA8+TysOm/pAPVKRYo7eGjtHY\n",
    },
    Grease {
        words: &[
            1795964436, 2903284639, 709106849, 3499957428, 274242577, 3862917714, 935103440,
            1308966262, 155168894, 577869972, 4184134593, 236972349, 1424811989, 546397250,
            4264212983, 3616695922, 3638081053, 651322931, 4090358047, 515606941, 3289343454,
            3898844191, 2636854295, 169634454, 233183778,
        ],
        spelling: b"-> lt_6=-grease\nfrA/CZSYcSLB02T5PekfDtXn7FRCXJEg97kq/nJmktcdttjYM2bSJh/pzfOdibse\n3mUPxB+kY+gXNCudlmo\n",
    },
    Grease {
        words: &[
            192265028, 3421212857, 3884016921, 3889925351, 2751898433, 2279459754, 2572227844,
            3325260717, 3120323173, 3400012679, 616509376, 2813536301, 3187799539, 3690893259,
            879837971, 3379226511, 2119701780, 2311648853, 1544022645, 3681720636, 4187070914,
            2906494875, 4178304353, 1267955679, 2272254130, 2268130413, 4165381837, 2994327016,
            1297648115, 3226863864, 2725454155, 2774778364, 696372247, 1574199623, 2246305051,
            2246257749, 4243678393, 1229813181, 789495681, 2939325075, 1295707413, 1490606880,
            2680197818, 2337950980, 851264026, 4153144324,
        ],
        spelling: b"-> LzX8q-grease D^E8&v 4y(n Y8>4; fe2}.i\nR2HUXRvl44VVLOOFuWTx/L11TUmBvw4vk4oyrxXtOk0g29hYupLAnwRNWosaQr0\n",
    },
    Grease {
        words: &[
            3904940000, 845982757, 2266470094, 1439705803, 2531134421, 130416379, 1012865157,
            2987294681, 4227887417, 3214701803, 1767971098, 3529498277, 2602127424, 2972560314,
            1176546244, 3412508043, 2685304948, 2020890396, 322969391, 1597624725, 1435723990,
            2151574312, 3961689458, 1258230331, 355755961, 503168882, 4068773324, 1210575304,
            1709384676, 1012863627,
        ],
        spelling: b"-> V-grease x<8^ B1 ]'G&w! dMIS&tKY\n5CPjZQ\n",
    },
    Grease {
        words: &[
            1989284033, 993718256, 3156546220, 1224540370, 3471742922, 3887238852, 1897821911,
            2329843775, 21759880, 587379867, 3796568765, 3198125394,
        ],
        spelling: b"-> my-grease\nxI6y59d2HnE/mN6KiAdMAZu0AiO9Cg\n",
    },
    Grease {
        words: &[
            709102055, 4234198024, 1152699761, 1142910234, 1498302421, 52158122, 3588005945,
            829791609, 4206291812, 1457578959, 3759950093, 2222859636, 56462307, 1469401581,
            1559345248, 2213257234, 4276593555, 3508076594, 1617892633, 712098188, 2810214488,
            3896754476, 1664185143, 2810305202, 252856844, 2440501997, 2320873690, 3735029636,
            1240476690, 52456829, 2407517875, 2051638357, 240594073, 2492778331, 1573507314,
            739517940, 1969271182, 3741919293, 3220491594, 3416063891, 1959539818, 1648797248,
            2794731318,
        ],
        spelling: b"-> oHQL]\">7-grease ypd7e, h]m :qI4] SD<|H\n8tDJXfQlFCyOsWB1PSgJ30rN9L+T/5zLajTMdECmRg\n",
    },
    Grease {
        words: &[
            990256805, 2538385231, 3699422209, 2258244960, 576637783, 4000636428, 611695199,
            3118213258, 1982698474, 2404416196, 2950479139, 26448221, 2559717805, 3271471695,
            1206065497, 3850850515, 1626153974, 533730336, 3242933398, 93065107, 3548492775,
            262512838, 693703656, 1958850704, 3610514755, 1488038515, 2108589563, 767464255,
            2862417177, 3340332860, 1189448541, 1823297667, 1972473738, 1130733427, 2203817444,
            3665282550, 3809985344, 1591773955, 924183815, 1682897596,
        ],
        spelling: b"-> 4HUP!f-grease cz& D\"pC=M .i-;\nc6qxWPuFrn0/k74tGQWdqjxvGcddi+VGg1CtbIqPkXVzn2VD5JVbg/bFd9pAwxfj\nA4vgXgftFQ\n",
    },
];

/// Stanzas of grease by their words.
pub fn greases() -> &'static [Grease] {
    GREASES
}

const SENDS: &[Send] = &[
    Send {
        words: &[5, 5, 1193076907],
        header: b"-> test foo\n\n",
        body: b"\x62\x61\x72",
        text: b"-> test foo\nYmFy\n",
    },
    Send {
        words: &[99, 99, 2663295098],
        header: b"-> msg\n\n",
        body: b"",
        text: b"-> msg\n\n",
    },
    Send {
        words: &[4294967295, 4294967205, 3585963992],
        header: b"-> kem\n\n",
        body: b"\x2e\x08\x53\x27\xdb\x5d\xe5\x67\x63\x6a\xbe\xfd\xe6\x12\x17\x6e\xd6\x96\x85\x7d\xa9\xb4\x3e\x0e\x5f\xdf\xe9\x57\xee\xca\xfe\x10\x22\x9a\xa4\xdc\x20\xa3\xbb\x11\xfe\x12\x38\xa3\xf5\xc0\x41\x1b",
        text: b"-> kem\nLghTJ9td5Wdjar795hIXbtaWhX2ptD4OX9/pV+7K/hAimqTcIKO7Ef4SOKP1wEEb\n\n",
    },
    Send {
        words: &[0, 0, 0, 0, 0, 5, 2852881656],
        header: b"-> test foo\n\n",
        body: b"\x62\x61\x72",
        text: b"-> !-grease\n\n-> test foo\nYmFy\n",
    },
    Send {
        words: &[4, 0, 0, 0, 0, 4, 0, 0, 0, 0, 780457738],
        header: b"-> test\n\n",
        body: b"",
        text: b"-> !-grease\n\n-> !-grease\n\n-> test\n\n",
    },
    Send {
        words: &[100, 0, 0, 0, 0, 105, 2466241041],
        header: b"-> test\n\n",
        body: b"",
        text: b"-> !-grease\n\n-> test\n\n",
    },
    Send {
        words: &[4294967204, 0, 0, 0, 0, 4294967199, 3227185085],
        header: b"-> test\n\n",
        body: b"",
        text: b"-> !-grease\n\n-> test\n\n",
    },
    Send {
        words: &[5, 4294967200, 0, 0, 0, 0, 3343817417],
        header: b"-> test\n\n",
        body: b"",
        text: b"-> !-grease\n\n-> test\n\n",
    },
    Send {
        words: &[
            3256934801, 1212541519, 2992580445, 3105901693, 1968512048, 2019385668, 1262049497,
            2027645041, 3076716060, 2175961941, 3189417739, 405928399, 2469534027, 3302948292,
            277133970, 3489514479, 3456508214, 4034521725, 2387982090, 3043926149, 474860909,
            3507197790, 3643795273, 1014094848, 569679652, 511753774, 2987172902, 613555621,
            1282686331, 2013020620, 1369860079, 2353870040, 4284347622, 1287418958, 2716432000,
            1514167254, 2464428792, 1809958816, 1060191686, 2333513326, 2446411299, 2374815504,
            4027732420, 1613622966, 2182943395, 816832429, 4076137331, 3427675285, 3407179537,
            4167173884, 3663180071, 922396941, 2820925143, 1966925872, 3758145250, 2552681164,
            3100320998, 3538054324, 1647167023, 1749294520, 266675878, 3273585738,
        ],
        header: b"-> wrap-file-key 0 X25519\n\n",
        body: b"\x3f\x2f\x88\x39\xc9\x07\x52\x8d\x8a\x10\xe8\xf2\x64\xb3\x6b\xa3\xe7\xaf\x85\x89\x0e\x38\x0f\xdd\xf1\xdf\x4e\xd9\x52\x9b\x39\xb1\x7e\x0c\x5e\x7a\x68",
        text: b"-> 2DS9Nxw<-grease XkeL}tk( kP'o)- :}V]3C ;\noMfha8Y9MT9ulhaLI0bRkRDPjI3EURLwtu4tYKMSHYKt368wc+v08pUsTswRbxXL\n/AZi+CexV9oNqfo21+YjqDDoPHXivgDgzNImmOYky7i0bOLSL8YtYrgdRGg\n-> wrap-file-key 0 X25519\nPy+IOckHUo2KEOjyZLNro+evhYkOOA/d8d9O2VKbObF+DF56aA\n",
    },
    Send {
        words: &[
            3820641628, 4000670204, 2443459236, 3713546908, 2354361008, 1354211096, 1044136683,
            867961649, 675716849, 468950073, 3344311679, 3854483590, 2431640401, 707947166,
            1076872001, 1251878295, 2629395779, 158630890, 2921084231, 3315603810, 1082213880,
            2722454159, 3452158558, 3924460020, 3557753337, 3221576294, 915466957, 1055239960,
            3713041025, 1472140228, 3144695732, 2584799077, 1271142951, 3798373395, 3860483341,
            2163000090, 3638894011, 2118846798, 1280182776, 223604826, 2726600162, 112068640,
            3016197674, 4006977212,
        ],
        header: b"-> wrap-file-key 0 X25519\n\n",
        body: b"\x19\xb1\xa1\x2d\x78\xc5\xa3\x8b\x02\x47\x47\xda\xc0\x4a\x6d\x1e\x64\x63\x8f\xb7\x84\x90\x63\xf0\xcb\xc8\x1c\x2f\xf1\x23\x2d\x51\x51\xff\x28\xf4\x9c\xff\x42\xf0\xe5\xe9\x9e\xb3\x8f\xd5\xc2",
        text: b"-> 1c#&V-grease nW o, R_0{[<%a 72\ngYJQ3cQTv1e0P3C7ZecQmicaxEsTlGbiDU0a5hrD7IC7HeXYTglLfvgJTkxa8FMN\n4p2EoiAIrgYqhsez\n-> wrap-file-key 0 X25519\nGbGhLXjFo4sCR0fawEptHmRjj7eEkGPwy8gcL/EjLVFR/yj0nP9C8OXpnrOP1cI\n",
    },
    Send {
        words: &[
            3916853603, 2934365241, 2690838839, 415269059, 3920928601, 605494358, 1504612325,
            2963698165, 165414127, 1012033886, 3470740231, 936141861, 2416874561, 2351489537,
            2122746442, 2646245580, 3313260565, 382773548, 2613214276, 4110543136, 853733126,
            3663909001, 4043640231, 3786324722, 527234903, 1089545666, 3827433012, 4052775050,
            614689820, 1437531747, 3193849512, 1185405838, 770567595, 167320038, 1776437321,
            196678648, 3867589464, 2007290939, 4270069856, 3223402929, 3865997615, 1454771549,
            718005571, 365074435, 3586646983, 3878439988, 3112908104, 2098636992, 1215651862,
        ],
        header: b"-> wrap-file-key 0 X25519\n\n",
        body: b"\x52\xa8\x43\xc1\x9b\x46\x6b\xb3\xe5\xdc\x85\x4b\x3f\x5e\xcd\xa8\x39\xab\x8d\x0a\x5f\xcf\x49\xd3\xe1\x0e\x29\xfe\xc5\x35\x13\x76\x0b\xcd\x63\xed\xf9\x25\x34\x36\x11\xb7\xc7\x9b\xc8\x3d\x3f\x2f\xd9\xa2\x18\x24\xf7\xf6\x25\x4c\x18",
        text: b"-> *z-grease *thyH|P\nSoqGfsyAup0VWHzFLKnQFkR8wpsg6QH1Bu/iMonQYtqnDQXx8g\n-> M3G-grease G GD%i\nYBiE/rE5IcAvcW7mXQ22VkPlyyoDmMIVx+PH1TRMLOdINYu5wKgW\n-> wrap-file-key 0 X25519\nUqhDwZtGa7Pl3IVLP17NqDmrjQpfz0nT4Q4p/sU1E3YLzWPt+SU0NhG3x5vIPT8v\n2aIYJPf2JUwY\n",
    },
    Send {
        words: &[
            642439702, 1653107739, 2225913737, 4237120489, 2879079864, 3809057064, 12566910,
            793714003, 4217169024, 2439983926, 3648003397,
        ],
        header: b"-> wrap-file-key 0 X25519\n\n",
        body: b"\xbf\xce\xc8\x03\xfb\x44\x34\x41\x4d\x36\x44\x39\x41\x90\x28\x69\x13\x5a\xfd\x0a\x0f\x4c\xc4\xaa\x1e\xaf\x91\x63\xde\x0b\x9b\x4c\x1c\xe2\x33",
        text: b"-> Dt3_-grease\ngORc\n-> wrap-file-key 0 X25519\nv87IA/tENEFNNkQ5QZAoaRNa/QoPTMSqHq+RY94Lm0wc4jM\n",
    },
    Send {
        words: &[
            1427420219, 2220440704, 1000761665, 20247703, 509818733, 4072607273, 364752941,
            101723036, 2993614656, 2297473067, 3579969975, 265643598, 1079423171, 2691024592,
            2006836133, 629644594, 3502298816, 1323197293, 945224139, 1084263925, 1179696768,
            3036191088, 959599184, 3970561310, 50573515, 1352623256, 450410375, 864763678,
        ],
        header: b"-> wrap-file-key 0 X25519\n\n",
        body: b"\x48\xff\x3e",
        text: b"-> *T-grease {Ip|e6 V %zz\ngL5QRnCZ+LRQUjI5HvWp7MuwAwOYZJ9Qhw\n-> wrap-file-key 0 X25519\nSP8+\n",
    },
    Send {
        words: &[
            3908980800, 2143966055, 3232787014, 215502716, 889297076, 4292907364, 4220765231,
            840711875, 2079373859, 482020987, 380021681, 3569915174, 493563464, 822731547,
            2330982042, 2349606393, 1845750991, 594894628, 2376666499, 1767162547, 3223602940,
            1057268853, 1928192517, 333027534, 4155476880, 1283267671, 3173112724, 192899771,
            2031062462, 224303499, 824889213, 362627291, 636069903, 2904140103, 1639336058,
            700308284, 3734440034, 1415107101, 1550417199, 759686349, 3772721756, 2351735330,
            1963769999, 3355136448, 3868721648, 3026976299, 2010535942, 1605054581, 1501548454,
            1044592074, 54727973, 561161123, 1200892728, 271254510, 2483956954, 4200884368,
            3400879687, 3916401469, 219586704, 1968331700, 1795747555, 361628949, 1203951823,
            662548993, 4121137080, 2413608378, 4265305610, 1895832356, 2849826353, 4132015837,
            3554905177, 3540894411, 2478732691, 1033463037, 2755901364, 1212760217, 1144637064,
            271230204, 41993688, 2548407355, 2558401881, 1080532340, 3487574305, 2526937799,
            3805534561, 1602088878,
        ],
        header: b"-> wrap-file-key 0 X25519\n\n",
        body: b"\xa4\xeb\xbc\xde\xaf\x7a\x7f\x42\xc9\x3f\x00\xd6\x14\x46\xcd\x2d\x9f\x41\xfd\x2a\x5f\xe7\xe1\xa7\x7d\xad\xda\x06\xf9\xb4\xc5\xb7\x69\x03\xb2\xac\x52\xaa\x67\x37\x72\x6f\x5a\xc3\x4a\x78\x7d\x0e\xe7",
        text: b"-> 5)3;jBPp-grease /:=bp90\n/EYkwHWkBD8F4u1yzpjZE5CLr/dXHH1MlNshvbtqfwu+jQ95i5leDX3PKjHbQJ0\n-> =-Mr~`o{-grease ; 7fe] 2U;}7. iyFN,T\nur3cjwpmO/4kGwBxMebcqd2OSfZZjOPTy8IN05N1vpP9ZJk9tLdDpJlASUiIxjlE\n/KQqENjFgAI7nOWXWR1+mHSdZ0AhKeDPxwKelmHZ0+I\n-> wrap-file-key 0 X25519\npOu83q96f0LJPwDWFEbNLZ9B/Spf5+Gnfa3aBvm0xbdpA7KsUqpnN3JvWsNKeH0O\n5w\n",
    },
];

/// Sends by their words.
pub fn sends() -> &'static [Send] {
    SENDS
}

const FINISHES: &[Grease] = &[
    Grease {
        words: &[
            3256934801, 1212541519, 2992580445, 3105901693, 1968512048, 2019385668, 1262049497,
            2027645041, 3076716060, 2175961941, 3189417739, 405928399, 2469534027, 3302948292,
            277133970, 3489514479, 3456508214, 4034521725, 2387982090, 3043926149, 474860909,
            3507197790, 3643795273, 1014094848, 569679652, 511753774, 2987172902, 613555621,
            1282686331, 2013020620, 1369860079, 2353870040, 4284347622, 1287418958, 2716432000,
            1514167254, 2464428792, 1809958816, 1060191686, 2333513326, 2446411299, 2374815504,
            4027732420, 1613622966, 2182943395, 816832429, 4076137331, 3427675285, 3407179537,
            4167173884, 3663180071, 922396941, 2820925143, 1966925872, 3758145250, 2552681164,
            3100320998, 3538054324, 1647167023, 1749294520, 266675878, 4292908618,
        ],
        spelling: b"-> 2DS9Nxw<-grease XkeL}tk( kP'o)- :}V]3C ;\noMfha8Y9MT9ulhaLI0bRkRDPjI3EURLwtu4tYKMSHYKt368wc+v08pUsTswRbxXL\n/AZi+CexV9oNqfo21+YjqDDoPHXivgDgzNImmOYky7i0bOLSL8YtYrgdRGg\n-> done\n\n",
    },
    Grease {
        words: &[
            3820641628, 4000670204, 2443459236, 3713546908, 2354361008, 1354211096, 1044136683,
            867961649, 675716849, 468950073, 3344311679, 3854483590, 2431640401, 707947166,
            1076872001, 1251878295, 2629395779, 158630890, 2921084231, 3315603810, 1082213880,
            2722454159, 3452158558, 3924460020, 3557753337, 3221576294, 915466957, 1055239960,
            3713041025, 1472140228, 3144695732, 2584799077, 1271142951, 3798373395, 3860483341,
            2163000090, 3638894011, 2118846798, 1280182776, 223604826, 2726600162, 112068640,
            3016197674, 3496742538,
        ],
        spelling: b"-> 1c#&V-grease nW o, R_0{[<%a 72\ngYJQ3cQTv1e0P3C7ZecQmicaxEsTlGbiDU0a5hrD7IC7HeXYTglLfvgJTkxa8FMN\n4p2EoiAIrgYqhsez\n-> done\n\n",
    },
    Grease {
        words: &[
            3916853603, 2934365241, 2690838839, 415269059, 3920928601, 605494358, 1504612325,
            2963698165, 165414127, 1012033886, 3470740231, 936141861, 2416874561, 2351489537,
            2122746442, 2646245580, 3313260565, 382773548, 2613214276, 4110543136, 853733126,
            3663909001, 4043640231, 3786324722, 527234903, 1089545666, 3827433012, 4052775050,
            614689820, 1437531747, 3193849512, 1185405838, 770567595, 167320038, 1776437321,
            196678648, 3867589464, 2007290939, 4270069856, 3223402929, 3865997615, 1454771549,
            718005571, 365074435, 3586646983, 3878439988, 3112908104, 2098636992, 1581978860,
        ],
        spelling: b"-> *z-grease *thyH|P\nSoqGfsyAup0VWHzFLKnQFkR8wpsg6QH1Bu/iMonQYtqnDQXx8g\n-> M3G-grease G GD%i\nYBiE/rE5IcAvcW7mXQ22VkPlyyoDmMIVx+PH1TRMLOdINYu5wKgW\n-> done\n\n",
    },
    Grease {
        words: &[
            642439702, 1653107739, 2225913737, 4237120489, 2879079864, 3809057064, 12566910,
            793714003, 4217169024, 2439983926, 2175836550,
        ],
        spelling: b"-> Dt3_-grease\ngORc\n-> done\n\n",
    },
    Grease {
        words: &[
            1427420219, 2220440704, 1000761665, 20247703, 509818733, 4072607273, 364752941,
            101723036, 2993614656, 2297473067, 3579969975, 265643598, 1079423171, 2691024592,
            2006836133, 629644594, 3502298816, 1323197293, 945224139, 1084263925, 1179696768,
            3036191088, 959599184, 3970561310, 50573515, 1352623256, 450410375, 3045611662,
        ],
        spelling: b"-> *T-grease {Ip|e6 V %zz\ngL5QRnCZ+LRQUjI5HvWp7MuwAwOYZJ9Qhw\n-> done\n\n",
    },
    Grease {
        words: &[
            3908980800, 2143966055, 3232787014, 215502716, 889297076, 4292907364, 4220765231,
            840711875, 2079373859, 482020987, 380021681, 3569915174, 493563464, 822731547,
            2330982042, 2349606393, 1845750991, 594894628, 2376666499, 1767162547, 3223602940,
            1057268853, 1928192517, 333027534, 4155476880, 1283267671, 3173112724, 192899771,
            2031062462, 224303499, 824889213, 362627291, 636069903, 2904140103, 1639336058,
            700308284, 3734440034, 1415107101, 1550417199, 759686349, 3772721756, 2351735330,
            1963769999, 3355136448, 3868721648, 3026976299, 2010535942, 1605054581, 1501548454,
            1044592074, 54727973, 561161123, 1200892728, 271254510, 2483956954, 4200884368,
            3400879687, 3916401469, 219586704, 1968331700, 1795747555, 361628949, 1203951823,
            662548993, 4121137080, 2413608378, 4265305610, 1895832356, 2849826353, 4132015837,
            3554905177, 3540894411, 2478732691, 1033463037, 2755901364, 1212760217, 1144637064,
            271230204, 41993688, 2548407355, 2558401881, 1080532340, 3487574305, 2526937799,
            3805534561, 2199278373,
        ],
        spelling: b"-> 5)3;jBPp-grease /:=bp90\n/EYkwHWkBD8F4u1yzpjZE5CLr/dXHH1MlNshvbtqfwu+jQ95i5leDX3PKjHbQJ0\n-> =-Mr~`o{-grease ; 7fe] 2U;}7. iyFN,T\nur3cjwpmO/4kGwBxMebcqd2OSfZZjOPTy8IN05N1vpP9ZJk9tLdDpJlASUiIxjlE\n/KQqENjFgAI7nOWXWR1+mHSdZ0AhKeDPxwKelmHZ0+I\n-> done\n\n",
    },
    Grease {
        words: &[5, 5, 106166324],
        spelling: b"-> done\n\n",
    },
    Grease {
        words: &[4, 0, 0, 0, 0, 5, 1305375262],
        spelling: b"-> !-grease\n\n-> done\n\n",
    },
];

/// Finishes by their words.
pub fn finishes() -> &'static [Grease] {
    FINISHES
}

const SEEDED_GREASES: &[Seeded] = &[
    Seeded {
        seed: "80bf7d18899e25996812fd8eb40b54fb143d32858b5d626417927e6979770283",
        calls: 1,
        next: 2133212254,
        text: b"-> {-grease \"Vje. 2)sA\nFAB29vg3k1fpklh8UKk+3WUNt5IZOFPp6Ta+t0oaC3kxJ0cXxo4CPwJ18BX/9Bj1\nWjzE6J9zFQEBKlTc2Sul3TH+YwdKgnark3VOAfvtTykWOrRKkJAa08oDbzM7dbHf\nstQG\n",
    },
    Seeded {
        seed: "282761379a0d865a3c2edf32aff31d6b37eccc41936ad4565af45328e18690f3",
        calls: 1,
        next: 824360962,
        text: b"-> 79vKiD-grease [!PUc w_g@&Q{\nNWIRHVGc8/Gtj+BfV/SM65DZjrf8neMFgoA5YII/\n",
    },
    Seeded {
        seed: "da2a4c663c684adc87e852bc5e1c9dde2be34d33644d144d0e1acfb6330cbb01",
        calls: 1,
        next: 126872368,
        text: b"-> l.eaRnp-grease bn8}6Iy {8Q|;t>Q >&c 'K-c\nPupe6qgpsNX1S5lIXOGsHCcLNREU\n",
    },
    Seeded {
        seed: "a15297d7fe64d731f24b6a466d4f2ea622c8126d081852820040b8a90350642d",
        calls: 2,
        next: 209532481,
        text: b"-> RX-grease )^J\nVZ/E2xUPL2XswngDITvL37KFvuJg+7oz2oiQxsgKq30\n-> s-grease (}ut HJThDr 4|!7L*\ntiB5KtcZpHFTHlpUaFmAX43p+PraQLxSxHDaFCRTcvTYajHTU16UiXLrJzKb41tO\ncfXlTmT77NcYxcXxONJRdF83rkwMCtdAFku6z/liZYtRU0PUW0I\n",
    },
    Seeded {
        seed: "60b949805dbab479542ac0d65aa48eddeb1df4977733a1eee0ed97bcf04e1e63",
        calls: 3,
        next: 1055506235,
        text: b"-> #S3j?T:Z-grease\nH9pwGE8r+IxXu3BWxXk6JKiAyJOjfwl5gyM627JWY+5yMsYkXbm1MSHgNNzLRdDB\n8rICPKuUDZE/arcDUPEJLA\n-> 7ZI&G-grease d>_5Y? @* U'ixe9\"#\nwzdZpwHzDAzbBpQW\n-> a5y<=~`-grease 1FaZa 1H=&.pzr +b\nvqSrSHECnTB3js462KifldVYKVuJ6ydTevZgsXMsAY++fr6qBUX7wvxHGQkEE3C3\n2Zk\n",
    },
    Seeded {
        seed: "8b2229a50b884e0117b39c145ac09a310298ad97784b34b3a041d38e7f257770",
        calls: 5,
        next: 4006314292,
        text: b"-> HH=G}^&-grease\nn8ZhLRGCNJHaDVurwDJ8OT1kD05bHwXMNrxBzx+1F58lpytmlwFItgrPLeO30JPE\nbBJm3FMy0dRqSr+zaxuiKXY+3nKtzWTyYikFMZGrfqzwLQEsbbc0sA/AH3EO8Eq4\nSsiK\n-> me-grease\nm57sRo2uzOVH0MKYz53lsaTsZLLMlMtjde9937tFxWkW2R+QurKLu9Yk11NAhWuB\npLY\n-> 653eb)-grease\nrLhCHW8AwqoGAD988037Jg\n-> /&-grease a (\\ \\ H\nFg\n-> '~r=aA>M-grease d<S{!A\nO5F9lhqR\n",
    },
];

/// So many calls of `grease_the_joint`.
pub fn seeded_greases() -> &'static [Seeded] {
    SEEDED_GREASES
}

const SEEDED_SENDS: &[Seeded] = &[
    Seeded {
        seed: "30d1cf3dee8a30ecaa4cca0355c2ee0719059c2c2e54f204b8328b1a4da5e036",
        calls: 2,
        next: 1295763302,
        text: b"-> command 0\n\n-> U*-grease {~\nOse5U7Qxy+r2JU9ENKOYnecOQRH52R1qaCfAXtSj+tJbPFMrp9kgd4F/K7dMKBSy\nhw\n-> command 1\nAQ\n-> done\n\n",
    },
    Seeded {
        seed: "abb4bfa64218998e89dee38fa6666112c49113d4eca5d1efc670e251fadb115f",
        calls: 1,
        next: 3892514849,
        text: b"-> eOg-grease\nQqF8BMFK9ZDlh20xQitmc9u+lkUHc1b/FW5I7SM93X4lSrRunnx2brCmXcIjrQ9k\nC/tBapavUOLUywDVWNJppDIFiRRdD1/51U+3WWJxdsxr\n-> command 0\n\n-> done\n\n",
    },
    Seeded {
        seed: "51c52a1a98d51a98878f325d118e38a9095a0934fb83f283fc2e99a2d72f9bd0",
        calls: 5,
        next: 774565109,
        text: b"-> command 0\n\n-> command 1\nAQ\n-> im3&-m}c-grease ~ )8*AY)%%\nF479G8cbNUqrjCMDKavbIBEGzwmVBYBgQ3eCcBv1ELpquJHkfGqfwk3Q2eRr/NIZ\nrnGTI4TIAo1LfE+SfnP9743+YqlSVA\n-> command 2\nAgI\n-> command 3\nAwMD\n-> command 4\nBAQEBA\n-> done\n\n",
    },
    Seeded {
        seed: "81e6ac5531576527d98958870a3b69a2a0dae793f6d9421ff231a76e5864b729",
        calls: 5,
        next: 2132441829,
        text: b"-> nQL~-grease WC PriE1# Y^\"vc^TD V\nS59D/SShMfGYJh5EwslW1zQMNKWvQCGn6sIYIAQ0tRmjSdF4RwoqOFn3l7KbnkSH\n29W2VY5/oILgAVLLfQoxUrV8T7U6PAUIOBaL+/s\n-> command 0\n\n-> command 1\nAQ\n-> AjYdN`-grease n?nGn#[ lx4n$0x Z*8E@ MivhjND\nN1TVYsTa41g9Tx9VYmSVEH53hUe5KW3WdrUvVlj/juen2TMuv5J9ovd95FDKjB0+\n\n-> command 2\nAgI\n-> command 3\nAwMD\n-> command 4\nBAQEBA\n-> done\n\n",
    },
    Seeded {
        seed: "48cf7c918901f691d597671b909053ac2677dbaff8e97636998adaca5cab4e18",
        calls: 4,
        next: 3767273489,
        text: b"-> command 0\n\n-> command 1\nAQ\n-> DmY-grease *GJ }=G]Sz4-\nKW2AflJTVMJw8yEqymlFVfcNBky47/LtY1n7uoH1Id6P7JtU1RVWJVyiriNKdoDA\nO6FvQxf0+6Ygowdt1FScQgyuc2CVwHGg/agA6fnbeVOfortYsc/ySlM\n-> command 2\nAgI\n-> command 3\nAwMD\n-> done\n\n",
    },
    Seeded {
        seed: "bc3af6ef8c3f6838181ad8e7a43f1fc24ae90af60e768fdc0672f5a548797f38",
        calls: 5,
        next: 988462083,
        text: b"-> u-grease\nBw9QsnFzih7MxY131BpZqg/9eyJbanJ9FoDo/db8ycSmcfGldMiTLoD3j6D/+Jx0\n7jHhQbcQLFRPtaFSMzzdMscWJriodVzSXsF7hDc\n-> command 0\n\n-> command 1\nAQ\n-> command 2\nAgI\n-> Gx;r<:cw-grease\nEyP/OEebb6UHgUpn4N80a4vh/bN536FZqrwxBEOKEirlcQbc8KCdTTesw35Df6q4\nmrfIYp/KrQgBhMaMX5+MyNG0EMU6J/iwhPSs7Wvrzxw4lSigA8Pj1S4fNWWgKhI\n-> command 3\nAwMD\n-> command 4\nBAQEBA\n-> done\n\n",
    },
    Seeded {
        seed: "2e05ab3d05a466d53caec1dd66aa25369dee0fca63cbf239e2ba28c72b0959d0",
        calls: 1,
        next: 3822938529,
        text: b"-> pf-grease p` M;TB(1/\nLTF6XnvCUkfAxQ\n-> command 0\n\n-> done\n\n",
    },
    Seeded {
        seed: "d0c404fe3e1307df17ae5e4abfdaf12de1e8400cc861fe8bd705825cfb37d2f7",
        calls: 5,
        next: 3511694451,
        text: b"-> o[a3y~-grease ((fbxIW\nt0Lqdv8jD+jy32yTktC7pFwZOmdZtw\n-> command 0\n\n-> command 1\nAQ\n-> pHtcl3-grease\nYgpJF8Ipe9qVSl3BgFtbp0fApdFEfN0tR2VfNqpGNg\n-> command 2\nAgI\n-> command 3\nAwMD\n-> command 4\nBAQEBA\n-> done\n\n",
    },
    Seeded {
        seed: "f5a7b24700c307da7dead2b58a11e526faaedd1c6b4fc80b5c0b4fb0f5c40330",
        calls: 5,
        next: 1027582884,
        text: b"-> command 0\n\n-> )-grease\nKYdgXHmWBttVlauWf9Y\n-> command 1\nAQ\n-> command 2\nAgI\n-> command 3\nAwMD\n-> command 4\nBAQEBA\n-> done\n\n",
    },
    Seeded {
        seed: "82fd75d5f4d076cf56d3815671770c70065e18c310500e9f2d699e9514f2fddb",
        calls: 2,
        next: 399254908,
        text: b"-> command 0\n\n-> command 1\nAQ\n-> done\n\n",
    },
    Seeded {
        seed: "ac9a71c10f2f20bb3f246461aad0ebc0459efd1ed5d7e049406d9ea4fc1c0195",
        calls: 5,
        next: 3252245379,
        text: b"-> command 0\n\n-> command 1\nAQ\n-> command 2\nAgI\n-> command 3\nAwMD\n-> command 4\nBAQEBA\n-> done\n\n",
    },
    Seeded {
        seed: "6f4f3773a6433a90d962a562c3e0e8e2390f7dc350cec14f2a75618738c375f1",
        calls: 2,
        next: 2394933901,
        text: b"-> command 0\n\n-> command 1\nAQ\n-> ;CkST-grease ck$F` {y,9e\njdbTe2PX6E9TM6AMgBAhndh+99aKrPYhkYZde0KtNhXg77SE+cPOHsYeq1zvClJk\n\n-> done\n\n",
    },
];

/// So many sends, of the command `command`, i and i times the byte i, and a finish.
pub fn seeded_sends() -> &'static [Seeded] {
    SEEDED_SENDS
}
