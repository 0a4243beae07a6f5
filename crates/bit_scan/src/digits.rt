//! Texts written forwards into bytes. Each call returns the place after its text; up to 15 bytes after that may change.

ghost use Rattle.std.specs.Prelude.{◌≡◌, ◌+◌, ◌*◌, ◌<◌, ◌≤◌, [], ◌∷◌, ◌++◌, decimal, length, replicate, take};
ghost use Rattle.bit_scan.specs.Digits.{entry, last_three};

use itoa::write_digits;

/// Of each number below 1,000 its digits, filled up to three bytes with spaces, and one more than how many they are.
static SMALL: [u8; 4000] = *b"\
0  \x021  \x022  \x023  \x024  \x025  \x026  \x027  \x028  \x029  \x0210 \x0311 \x0312 \x0313 \x0314 \x0315 \x03\
16 \x0317 \x0318 \x0319 \x0320 \x0321 \x0322 \x0323 \x0324 \x0325 \x0326 \x0327 \x0328 \x0329 \x0330 \x0331 \x03\
32 \x0333 \x0334 \x0335 \x0336 \x0337 \x0338 \x0339 \x0340 \x0341 \x0342 \x0343 \x0344 \x0345 \x0346 \x0347 \x03\
48 \x0349 \x0350 \x0351 \x0352 \x0353 \x0354 \x0355 \x0356 \x0357 \x0358 \x0359 \x0360 \x0361 \x0362 \x0363 \x03\
64 \x0365 \x0366 \x0367 \x0368 \x0369 \x0370 \x0371 \x0372 \x0373 \x0374 \x0375 \x0376 \x0377 \x0378 \x0379 \x03\
80 \x0381 \x0382 \x0383 \x0384 \x0385 \x0386 \x0387 \x0388 \x0389 \x0390 \x0391 \x0392 \x0393 \x0394 \x0395 \x03\
96 \x0397 \x0398 \x0399 \x03100\x04101\x04102\x04103\x04104\x04105\x04106\x04107\x04108\x04109\x04110\x04111\x04\
112\x04113\x04114\x04115\x04116\x04117\x04118\x04119\x04120\x04121\x04122\x04123\x04124\x04125\x04126\x04127\x04\
128\x04129\x04130\x04131\x04132\x04133\x04134\x04135\x04136\x04137\x04138\x04139\x04140\x04141\x04142\x04143\x04\
144\x04145\x04146\x04147\x04148\x04149\x04150\x04151\x04152\x04153\x04154\x04155\x04156\x04157\x04158\x04159\x04\
160\x04161\x04162\x04163\x04164\x04165\x04166\x04167\x04168\x04169\x04170\x04171\x04172\x04173\x04174\x04175\x04\
176\x04177\x04178\x04179\x04180\x04181\x04182\x04183\x04184\x04185\x04186\x04187\x04188\x04189\x04190\x04191\x04\
192\x04193\x04194\x04195\x04196\x04197\x04198\x04199\x04200\x04201\x04202\x04203\x04204\x04205\x04206\x04207\x04\
208\x04209\x04210\x04211\x04212\x04213\x04214\x04215\x04216\x04217\x04218\x04219\x04220\x04221\x04222\x04223\x04\
224\x04225\x04226\x04227\x04228\x04229\x04230\x04231\x04232\x04233\x04234\x04235\x04236\x04237\x04238\x04239\x04\
240\x04241\x04242\x04243\x04244\x04245\x04246\x04247\x04248\x04249\x04250\x04251\x04252\x04253\x04254\x04255\x04\
256\x04257\x04258\x04259\x04260\x04261\x04262\x04263\x04264\x04265\x04266\x04267\x04268\x04269\x04270\x04271\x04\
272\x04273\x04274\x04275\x04276\x04277\x04278\x04279\x04280\x04281\x04282\x04283\x04284\x04285\x04286\x04287\x04\
288\x04289\x04290\x04291\x04292\x04293\x04294\x04295\x04296\x04297\x04298\x04299\x04300\x04301\x04302\x04303\x04\
304\x04305\x04306\x04307\x04308\x04309\x04310\x04311\x04312\x04313\x04314\x04315\x04316\x04317\x04318\x04319\x04\
320\x04321\x04322\x04323\x04324\x04325\x04326\x04327\x04328\x04329\x04330\x04331\x04332\x04333\x04334\x04335\x04\
336\x04337\x04338\x04339\x04340\x04341\x04342\x04343\x04344\x04345\x04346\x04347\x04348\x04349\x04350\x04351\x04\
352\x04353\x04354\x04355\x04356\x04357\x04358\x04359\x04360\x04361\x04362\x04363\x04364\x04365\x04366\x04367\x04\
368\x04369\x04370\x04371\x04372\x04373\x04374\x04375\x04376\x04377\x04378\x04379\x04380\x04381\x04382\x04383\x04\
384\x04385\x04386\x04387\x04388\x04389\x04390\x04391\x04392\x04393\x04394\x04395\x04396\x04397\x04398\x04399\x04\
400\x04401\x04402\x04403\x04404\x04405\x04406\x04407\x04408\x04409\x04410\x04411\x04412\x04413\x04414\x04415\x04\
416\x04417\x04418\x04419\x04420\x04421\x04422\x04423\x04424\x04425\x04426\x04427\x04428\x04429\x04430\x04431\x04\
432\x04433\x04434\x04435\x04436\x04437\x04438\x04439\x04440\x04441\x04442\x04443\x04444\x04445\x04446\x04447\x04\
448\x04449\x04450\x04451\x04452\x04453\x04454\x04455\x04456\x04457\x04458\x04459\x04460\x04461\x04462\x04463\x04\
464\x04465\x04466\x04467\x04468\x04469\x04470\x04471\x04472\x04473\x04474\x04475\x04476\x04477\x04478\x04479\x04\
480\x04481\x04482\x04483\x04484\x04485\x04486\x04487\x04488\x04489\x04490\x04491\x04492\x04493\x04494\x04495\x04\
496\x04497\x04498\x04499\x04500\x04501\x04502\x04503\x04504\x04505\x04506\x04507\x04508\x04509\x04510\x04511\x04\
512\x04513\x04514\x04515\x04516\x04517\x04518\x04519\x04520\x04521\x04522\x04523\x04524\x04525\x04526\x04527\x04\
528\x04529\x04530\x04531\x04532\x04533\x04534\x04535\x04536\x04537\x04538\x04539\x04540\x04541\x04542\x04543\x04\
544\x04545\x04546\x04547\x04548\x04549\x04550\x04551\x04552\x04553\x04554\x04555\x04556\x04557\x04558\x04559\x04\
560\x04561\x04562\x04563\x04564\x04565\x04566\x04567\x04568\x04569\x04570\x04571\x04572\x04573\x04574\x04575\x04\
576\x04577\x04578\x04579\x04580\x04581\x04582\x04583\x04584\x04585\x04586\x04587\x04588\x04589\x04590\x04591\x04\
592\x04593\x04594\x04595\x04596\x04597\x04598\x04599\x04600\x04601\x04602\x04603\x04604\x04605\x04606\x04607\x04\
608\x04609\x04610\x04611\x04612\x04613\x04614\x04615\x04616\x04617\x04618\x04619\x04620\x04621\x04622\x04623\x04\
624\x04625\x04626\x04627\x04628\x04629\x04630\x04631\x04632\x04633\x04634\x04635\x04636\x04637\x04638\x04639\x04\
640\x04641\x04642\x04643\x04644\x04645\x04646\x04647\x04648\x04649\x04650\x04651\x04652\x04653\x04654\x04655\x04\
656\x04657\x04658\x04659\x04660\x04661\x04662\x04663\x04664\x04665\x04666\x04667\x04668\x04669\x04670\x04671\x04\
672\x04673\x04674\x04675\x04676\x04677\x04678\x04679\x04680\x04681\x04682\x04683\x04684\x04685\x04686\x04687\x04\
688\x04689\x04690\x04691\x04692\x04693\x04694\x04695\x04696\x04697\x04698\x04699\x04700\x04701\x04702\x04703\x04\
704\x04705\x04706\x04707\x04708\x04709\x04710\x04711\x04712\x04713\x04714\x04715\x04716\x04717\x04718\x04719\x04\
720\x04721\x04722\x04723\x04724\x04725\x04726\x04727\x04728\x04729\x04730\x04731\x04732\x04733\x04734\x04735\x04\
736\x04737\x04738\x04739\x04740\x04741\x04742\x04743\x04744\x04745\x04746\x04747\x04748\x04749\x04750\x04751\x04\
752\x04753\x04754\x04755\x04756\x04757\x04758\x04759\x04760\x04761\x04762\x04763\x04764\x04765\x04766\x04767\x04\
768\x04769\x04770\x04771\x04772\x04773\x04774\x04775\x04776\x04777\x04778\x04779\x04780\x04781\x04782\x04783\x04\
784\x04785\x04786\x04787\x04788\x04789\x04790\x04791\x04792\x04793\x04794\x04795\x04796\x04797\x04798\x04799\x04\
800\x04801\x04802\x04803\x04804\x04805\x04806\x04807\x04808\x04809\x04810\x04811\x04812\x04813\x04814\x04815\x04\
816\x04817\x04818\x04819\x04820\x04821\x04822\x04823\x04824\x04825\x04826\x04827\x04828\x04829\x04830\x04831\x04\
832\x04833\x04834\x04835\x04836\x04837\x04838\x04839\x04840\x04841\x04842\x04843\x04844\x04845\x04846\x04847\x04\
848\x04849\x04850\x04851\x04852\x04853\x04854\x04855\x04856\x04857\x04858\x04859\x04860\x04861\x04862\x04863\x04\
864\x04865\x04866\x04867\x04868\x04869\x04870\x04871\x04872\x04873\x04874\x04875\x04876\x04877\x04878\x04879\x04\
880\x04881\x04882\x04883\x04884\x04885\x04886\x04887\x04888\x04889\x04890\x04891\x04892\x04893\x04894\x04895\x04\
896\x04897\x04898\x04899\x04900\x04901\x04902\x04903\x04904\x04905\x04906\x04907\x04908\x04909\x04910\x04911\x04\
912\x04913\x04914\x04915\x04916\x04917\x04918\x04919\x04920\x04921\x04922\x04923\x04924\x04925\x04926\x04927\x04\
928\x04929\x04930\x04931\x04932\x04933\x04934\x04935\x04936\x04937\x04938\x04939\x04940\x04941\x04942\x04943\x04\
944\x04945\x04946\x04947\x04948\x04949\x04950\x04951\x04952\x04953\x04954\x04955\x04956\x04957\x04958\x04959\x04\
960\x04961\x04962\x04963\x04964\x04965\x04966\x04967\x04968\x04969\x04970\x04971\x04972\x04973\x04974\x04975\x04\
976\x04977\x04978\x04979\x04980\x04981\x04982\x04983\x04984\x04985\x04986\x04987\x04988\x04989\x04990\x04991\x04\
992\x04993\x04994\x04995\x04996\x04997\x04998\x04999\x04";

/// The entry of a number below 1,000.
#[inline(always)]
fn entry_of(number: u64) -> [u8; 4]
    requires { number < 1000 }
    ensures { result ≡ entry number }
{
    let from = number as usize * 4;
    [
        SMALL[from],
        SMALL[from + 1],
        SMALL[from + 2],
        SMALL[from + 3],
    ]
}

/// Writes a text of any length.
#[inline(always)]
pub(crate) fn put_slice(text: &[u8], bytes: &mut [u8], at: usize) -> usize
    requires { at + length text.now ≤ length bytes.old }
    ensures end { result ≡ at + length text.now }
    ensures long { length bytes.new ≡ length bytes.old }
    ensures wrote { take result bytes.new ≡ take at bytes.old ++ text.now }
{
    let end = at + text.len();
    bytes[at..end].copy_from_slice(text);
    end
}

/// Writes a text of a few bytes. It is taken by value, so that the compiler knows that none of its bytes is written.
#[inline(always)]
pub(crate) fn put_text<const N: usize>(text: [u8; N], bytes: &mut [u8], at: usize) -> usize
    requires { at + length text ≤ length bytes.old }
    ensures end { result ≡ at + length text.entry }
    ensures long { length bytes.new ≡ length bytes.old }
    ensures wrote { take result bytes.new ≡ take at bytes.old ++ text.entry }
{
    put_slice(&text, bytes, at)
}

/// Writes a byte.
#[inline(always)]
pub(crate) fn put_byte(byte: u8, bytes: &mut [u8], at: usize) -> usize
    requires { at < length bytes.old }
    ensures end { result ≡ at + 1 }
    ensures long { length bytes.new ≡ length bytes.old }
    ensures wrote { take result bytes.new ≡ take at bytes.old ++ (byte ∷ []) }
{
    bytes[at] = byte;
    at + 1
}

/// Writes `count` spaces, whatever their number.
#[cold]
#[inline(never)]
fn put_many_spaces(count: usize, bytes: &mut [u8], at: usize) -> usize
    requires { at + count + 15 ≤ length bytes.old }
    ensures end { result ≡ at + count }
    ensures long { length bytes.new ≡ length bytes.old }
    ensures wrote { take result bytes.new ≡ take at bytes.old ++ (replicate count 32) }
{
    let mut done = 0;
    while done < count {
        put_text([b' '; 16], bytes, at + done);
        done += 16;
    }
    at + count
}

/// Writes `count` spaces. Up to 16 are one store: LLVM makes a call of a loop.
#[inline(always)]
pub(crate) fn put_spaces(count: usize, bytes: &mut [u8], at: usize) -> usize
    requires { at + count + 16 ≤ length bytes.old }
    ensures end { result ≡ at + count }
    ensures long { length bytes.new ≡ length bytes.old }
    ensures wrote { take result bytes.new ≡ take at bytes.old ++ (replicate count 32) }
{
    if count > 16 {
        return put_many_spaces(count, bytes, at);
    }
    put_text([b' '; 16], bytes, at);
    at + count
}

/// Writes the digits of a number below 1,000, and returns one more than how many they are.
#[inline(always)]
fn put_short(number: u64, bytes: &mut [u8], at: usize) -> usize
    requires { (number < 1000) × (at + 4 ≤ length bytes.old) }
    ensures count { result ≡ length (decimal number) + 1 }
    ensures short { result ≤ 4 }
    ensures long { length bytes.new ≡ length bytes.old }
    ensures wrote { take (at + length (decimal number)) bytes.new ≡ take at bytes.old ++ decimal number }
{
    let entry = entry_of(number);
    put_text(entry, bytes, at);
    entry[3] as usize
}

/// How many digits a number has.
#[inline(always)]
fn digits_of(number: u64) -> usize
    ensures count { result ≡ length (decimal number) }
    ensures most { result ≤ 20 }
{
    let mut left = number;
    let mut count = 0;
    while left >= 1000 {
        left /= 1000;
        count += 3;
    }
    count + entry_of(left)[3] as usize - 1
}

/// Writes the digits of a number of any length.
#[inline(never)]
fn put_long(number: u64, bytes: &mut [u8], at: usize) -> usize
    requires { at + 20 ≤ length bytes.old }
    ensures end { (at ≤ result) × (result ≤ at + 20) }
    ensures long { length bytes.new ≡ length bytes.old }
    ensures wrote { take result bytes.new ≡ take at bytes.old ++ decimal number }
{
    let end = at + digits_of(number);
    write_digits(number, bytes, end);
    end
}

/// Writes the last three digits of a number.
#[inline(always)]
fn put_last(number: u64, bytes: &mut [u8], at: usize) -> usize
    requires { at + 3 ≤ length bytes.old }
    ensures end { result ≡ at + 3 }
    ensures long { length bytes.new ≡ length bytes.old }
    ensures wrote { take result bytes.new ≡ take at bytes.old ++ last_three number }
{
    let last = number % 1000;
    let entry = entry_of(last % 100 + 100);
    let tens = put_byte(b'0' + (last / 100) as u8, bytes, at);
    put_text([entry[1], entry[2]], bytes, tens)
}

/// Writes the digits of a number that has at least four.
#[inline(never)]
fn put_large(number: u64, bytes: &mut [u8], at: usize) -> usize
    requires { (1000 ≤ number) × (at + 20 ≤ length bytes.old) }
    ensures end { (at ≤ result) × (result ≤ at + 20) }
    ensures long { length bytes.new ≡ length bytes.old }
    ensures wrote { take result bytes.new ≡ take at bytes.old ++ decimal number }
{
    if number >= 1_000_000 {
        return put_long(number, bytes, at);
    }
    let front = at + put_short(number / 1000, bytes, at) - 1;
    put_last(number, bytes, front)
}

/// Writes the digits of a number.
#[inline(always)]
pub(crate) fn put_digits(number: u64, bytes: &mut [u8], at: usize) -> usize
    requires { at + 20 ≤ length bytes.old }
    ensures end { (at ≤ result) × (result ≤ at + 20) }
    ensures long { length bytes.new ≡ length bytes.old }
    ensures wrote { take result bytes.new ≡ take at bytes.old ++ decimal number }
{
    if number >= 1000 {
        return put_large(number, bytes, at);
    }
    at + put_short(number, bytes, at) - 1
}
